//! The entries of a table with their states.
ghost use Rattle.std.specs.Prelude.{◌≡◌, IfOk};
ghost use Rattle.fort_tables.specs.Tables.{listed_table};
ghost use Rattle.fort_witness.specs.Solving.{AreEntries};

use crate::head::Head;
use fort_lockstep::Dta;
use fort_table::Table;
use std::alloc::{AllocError, Global};

/// The presences of all states.
fn presences_of(alloc: Global, table: &Dta) -> Result<Vec<u16>, AllocError>
    ensures { IfOk result (λ v. v.items ≡ table.now.presences) }
{
    let mut presences = Vec::new(alloc);
    for q in 0..table.states() {
        presences.push(table.presence(q))?;
    }
    Ok(presences)
}

/// All entries with their states.
pub fn entries_of(alloc: Global, table: &Dta) -> Result<Vec<Head>, AllocError>
    ensures { IfOk result (λ v. AreEntries (listed_table table.now) v.items) }
{
    let presences = presences_of(alloc, table)?;
    let mut all = Vec::new(alloc);
    // its clause says that the table is lawful
    let _states = table.states();
    let mut entries = table.entries();
    'entries: loop {
        match entries.next(presences.as_slice()) {
            Some(row) => {
                let state = table.target(&row.sym(), row.kids());
                all.push(Head { row, state })?;
            }
            None => return Ok(all),
        }
    }
}
