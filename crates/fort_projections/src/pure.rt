//! States with one column alone present.
ghost use Rattle.std.specs.Prelude.{ℕ, ◌<◌, ◌≤◌, length, slice_index_or, IfOk, IfSome, IfNone};
ghost use Rattle.std.specs.Slice.Scan.{HoldsNowhere};
ghost use Rattle.fort_tables.specs.Tables as tables;
ghost use Rattle.fort_tables.specs.Projections.{ArePure, is_pure as is_pure_lem};
ghost use Rattle.fort_projections.specs.Choices.{IsNext};

use fort_table::Table;
use std::alloc::{AllocError, Global};

/// The states of tuples in which this column alone is present, ascending.
pub fn pure_states<T: Table>(
    alloc: Global,
    table: &T,
    column: usize,
) -> Result<Vec<u32>, AllocError>
    requires { column < (T.table table.now).columns }
    ensures { IfOk result (λ states. ArePure (T.table table.now) column states.items) }
{
    // its clause says that the table is lawful
    let _columns = table.columns();
    let mut states = Vec::new(alloc);
    for q in 0..table.states() {
        if table.presence(q) == 1 << column {
            states.push(q)?;
        }
    }
    Ok(states)
}

/// The place of the first number from `from` on in an ascending list.
fn first_from(numbers: &[u32], from: u32) -> usize
    requires { (i j : ℕ) → i < j → j < length numbers.now
        → slice_index_or numbers.now i 0 < slice_index_or numbers.now j 0 }
    ensures within { result ≤ length numbers.now }
    ensures below { (k : ℕ) → k < result → slice_index_or numbers.now k 0 < from }
    ensures above { (k : ℕ) → result ≤ k → k < length numbers.now
        → from ≤ slice_index_or numbers.now k 0 }
{
    match numbers.binary_search(&from) {
        Ok(place) => place,
        Err(place) => place,
    }
}

/// The first of the pure states from `from` on.
pub fn next_pure(alone: &[u32], from: u32) -> Option<usize>
    requires { (body : tables.Table) × (column : ℕ) × ArePure body column alone.now }
    ensures some { (body : tables.Table) (column : ℕ) → ArePure body column alone.now
        → IfSome result (IsNext (is_pure_lem body column) from) }
    ensures none { (body : tables.Table) (column : ℕ) → ArePure body column alone.now
        → IfNone result (HoldsNowhere (is_pure_lem body column) from (length body.presences)) }
{
    let place = first_from(alone, from);
    if place < alone.len() {
        Some(alone[place] as usize)
    } else {
        None
    }
}
