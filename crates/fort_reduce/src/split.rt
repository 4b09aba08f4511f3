//! A class is split by where its states lead.
ghost use Rattle.std.specs.Prelude.{◌≡◌, ℕ, ◌<◌, ◌≤◌, length, IfOk};
ghost use Rattle.fort_tables.specs.Entries.{entry};
ghost use Rattle.fort_tables.specs.Tables.{listed_table, IsTable, IsTableEntry};
ghost use Rattle.fort_tables.specs.Separation.{entry_with};
ghost use Rattle.fort_tables.specs.Merges.{class_of};
ghost use Rattle.fort_tables.specs.Refinement.{split_one, IsSplitTo};

use fort_lockstep::Dta;
use fort_table::Table;
use fort_tuple_symbols::TupleSym;
use std::alloc::{AllocError, Global};

/// Where an entry leads with this state for child `j`.
pub fn target_with(table: &Dta, sym: &TupleSym, kids: &[u32], j: usize, q: u32) -> u32
    requires child { j < length kids.now }
    requires few { length kids.now ≤ 8 }
    requires stands { IsTableEntry (listed_table table.now) (entry_with sym.now kids.now j q) }
    ensures { result ≡ (listed_table table.now).target (entry_with sym.now kids.now j q) }
{
    let mut states = [0u32; 8];
    states[..kids.len()].copy_from_slice(kids);
    states[j] = q;
    table.target(sym, &states[..kids.len()])
}

/// The class of a state where those of a class that don't lead to `stays` go to `fresh`.
fn class_after(
    table: &Dta,
    of: &[u32],
    sym: &TupleSym,
    kids: &[u32],
    j: usize,
    class: u32,
    stays: u32,
    fresh: u32,
    q: u32,
) -> u32
    requires state { q < length of.now }
    requires count { length of.now ≡ length table.now.presences }
    requires child { j < length kids.now }
    requires few { length kids.now ≤ 8 }
    requires lawful { IsTable (listed_table table.now) }
    requires stands { class_of of.now q ≡ class
        → IsTableEntry (listed_table table.now) (entry_with sym.now kids.now j q) }
    ensures { result ≡ split_one (listed_table table.now) of.now sym.now kids.now j class stays
        fresh q }
{
    let own = of[q as usize];
    if own == class {
        let target = target_with(table, sym, kids, j, q);
        if of[target as usize] == stays {
            own
        } else {
            fresh
        }
    } else {
        own
    }
}

/// The classes after a split: of the class, those that don't lead to `stays` go to `fresh`.
pub fn split(
    alloc: Global,
    table: &Dta,
    of: &[u32],
    sym: &TupleSym,
    kids: &[u32],
    j: usize,
    class: u32,
    stays: u32,
    fresh: u32,
) -> Result<Vec<u32>, AllocError>
    requires count { length of.now ≡ length table.now.presences }
    requires child { j < length kids.now }
    requires few { length kids.now ≤ 8 }
    requires lawful { IsTable (listed_table table.now) }
    requires stands { (q : ℕ) → q < length of.now → class_of of.now q ≡ class
        → IsTableEntry (listed_table table.now) (entry_with sym.now kids.now j q) }
    ensures { IfOk result (λ next. IsSplitTo (listed_table table.now) of.now sym.now kids.now j
        class stays fresh (length of.now) next.items) }
{
    let states = table.states();
    let mut next = Vec::new(alloc);
    for q in 0..states {
        next.push(class_after(table, of, sym, kids, j, class, stays, fresh, q))?;
    }
    Ok(next)
}
