//! Entries of a table, and look-ups of their targets.
ghost use Rattle.std.specs.Prelude.{◌≡◌, ◌<◌, ◌^◌, length, Contains, IfOk};
ghost use Rattle.fort_tables.specs.Entries.{Entry};
ghost use Rattle.fort_measure.specs.Samples.{AreEntries};

use fort_lockstep::Dta;
use fort_table::Table;
use fort_tuple_symbols::Row;
use std::alloc::{AllocError, Global};

fn presences_of(alloc: Global, table: &Dta) -> Result<Vec<u16>, AllocError>
    ensures all { IfOk result (λ v. v.items ≡ table.now.presences) }
    ensures few { length table.now.presences < 2 ^ 32 }
{
    let mut presences = Vec::new(alloc);
    for q in 0..table.states() {
        presences.push(table.presence(q))?;
    }
    Ok(presences)
}

/// Each `every`-th entry.
pub fn sample(alloc: Global, table: &Dta, every: u64) -> Result<Vec<Row>, AllocError>
    ensures { IfOk result (λ v. AreEntries table.now v.items) }
{
    let presences = presences_of(alloc, table)?;
    let mut entries = table.entries();
    let mut rows = Vec::new(alloc);
    let mut left = 1u64;
    for _ in 0..u64::MAX {
        match entries.next(presences.as_slice()) {
            Some(row) => {
                left = left.saturating_sub(1);
                if left == 0 {
                    rows.push(row)?;
                    left = every;
                }
            }
            None => break,
        }
    }
    Ok(rows)
}

/// One of the entries.
fn row_at(rows: &[Row], place: u64) -> Row
    requires { 0 < length rows.now }
    ensures { Contains rows.now result }
{
    rows[(place % rows.len() as u64) as usize]
}

/// The same in another order.
pub fn mixed(alloc: Global, rows: &[Row], multiplier: u64) -> Result<Vec<Row>, AllocError>
    ensures { IfOk result (λ v. (e : Entry) → Contains v.items e → Contains rows.now e) }
{
    let mut mixed = Vec::new(alloc);
    for k in 0..rows.len() {
        mixed.push(row_at(rows, (k as u64).wrapping_mul(multiplier)))?;
    }
    Ok(mixed)
}

/// The sum of their targets.
pub fn look_up(table: &Dta, rows: &[Row]) -> u64
    requires { AreEntries table.now rows.now }
{
    let mut sum = 0u64;
    for k in 0..rows.len() {
        let row = &rows[k];
        sum = sum.wrapping_add(u64::from(table.target(&row.sym(), row.kids())));
    }
    sum
}
