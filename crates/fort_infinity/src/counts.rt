//! How many terms give each state with one column alone present.
ghost use Rattle.std.specs.Prelude.{◌≡◌, ℕ, ◌<◌, map, length, slice_index_or, [], IfOk};
ghost use Rattle.fort_tables.specs.Projections.{ArePure};
ghost use Rattle.fort_tables.specs.Counts.{AreCounts};
ghost use Rattle.fort_tables.specs.Ranks.{count_by};
ghost use Rattle.fort_tables.proofs.CountLaws.{marks_by};
ghost use Rattle.fort_findings.specs.FindingView.{as_count};
ghost use Rattle.fort_infinity.specs.LeastUnranked.{least_from, greatest_number, least_child};

use crate::children::pure_children;
use crate::lists::StateLists;
use crate::ranks::settled_ranks;
use fort_findings::Count;
use fort_table::Table;
use std::alloc::{AllocError, Global};

/// The least child without a rank.
fn least_unranked(children: &[u32], ranks: &[u32]) -> u32
    requires { (i : ℕ) → i < length children.now
        → slice_index_or children.now i 0 < length ranks.now }
    ensures { result ≡ least_from (λ k. slice_index_or ranks.now k 0) greatest_number
        children.now }
{
    let mut least = u32::MAX;
    for k in children {
        if ranks[*k as usize] == 0 {
            least = least.min(*k);
        }
    }
    least
}

/// The count of a state with this rank and these children.
fn count_of(rank: u32, children: &[u32], ranks: &[u32]) -> Count
    requires { (i : ℕ) → i < length children.now
        → slice_index_or children.now i 0 < length ranks.now }
    ensures { as_count result ≡ count_by rank (least_from (λ k. slice_index_or ranks.now k 0)
        greatest_number children.now) }
{
    if rank == 0 {
        Count::Infinite(least_unranked(children, ranks))
    } else {
        Count::Finite(rank - 1)
    }
}

/// The counts of the pure states.
fn list_counts(
    alloc: Global,
    alone: &[u32],
    children: &StateLists,
    ranks: &[u32],
) -> Result<Vec<Count>, AllocError>
    requires states { (i : ℕ) → i < length alone.now
        → slice_index_or alone.now i 0 < length children.now }
    requires children { (k i : ℕ) → i < length (slice_index_or children.now k [])
        → slice_index_or (slice_index_or children.now k []) i 0 < length children.now }
    requires ranks { length ranks.now ≡ length children.now }
    ensures { IfOk result (λ counts. map as_count counts.items
        ≡ map (marks_by (λ k. slice_index_or ranks.now k 0) (least_child children.now
        (λ k. slice_index_or ranks.now k 0))) alone.now) }
{
    let mut counts = Vec::new(alloc);
    for q in alone {
        let count = count_of(ranks[*q as usize], children.list(*q), ranks);
        counts.push(count)?;
    }
    Ok(counts)
}

/// For each of the states with this column alone present, which `alone` lists: the greatest height of a term that gives it, or where
/// infinitely many do, the least child of which that is so. An entry is looked at once, when its children are listed; then each of
/// the listed children once in the ranking, and once where the state has no rank.
pub fn pure_counts<T: Table>(
    alloc: Global,
    body: &T,
    column: usize,
    alone: &[u32],
) -> Result<Vec<Count>, AllocError>
    requires column { column < (T.table body.now).columns }
    requires alone { ArePure (T.table body.now) column alone.now }
    ensures { IfOk result (λ counts. AreCounts (T.table body.now) column alone.now
        (map as_count counts.items)) }
{
    // its clause says that the table is lawful
    let _states = body.states();
    let children = pure_children(alloc, body, column, alone)?;
    let ranks = settled_ranks(alloc, &children, alone)?;
    list_counts(alloc, alone, &children, &ranks)
}
