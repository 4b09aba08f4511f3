//! Classes by presence and acceptance.
ghost use Rattle.std.specs.Prelude.{◌≡◌, ℕ, ◌<◌, ◌≤◌, length, slice_index_or, IfOk, true, false};
ghost use Rattle.fort_tables.specs.Tables.{listed_table};
ghost use Rattle.fort_tables.specs.Refinement.{IsRefined};
ghost use Rattle.fort_reduce.specs.Walks.{AreLike};

use crate::classes::Classes;
use fort_lockstep::Dta;
use fort_table::Table;
use std::alloc::{AllocError, Global};

/// Whether two states have one presence and one acceptance.
fn are_like(table: &Dta, p: u32, q: u32) -> bool
    requires first { p < length table.now.presences }
    requires second { q < length table.now.presences }
    ensures yes { result ≡ true → AreLike (listed_table table.now) p q }
    ensures no { result ≡ false → AreLike (listed_table table.now) p q → ⊥ }
{
    table.presence(p) == table.presence(q) && table.is_final(p) == table.is_final(q)
}

/// The first leader that is like the state; as many as leaders where there is none.
fn place_among(table: &Dta, leaders: &[u32], q: u32) -> usize
    requires state { q < length table.now.presences }
    requires leaders { (c : ℕ) → c < length leaders.now
        → slice_index_or leaders.now c 0 < length table.now.presences }
    ensures most { result ≤ length leaders.now }
    ensures found { result < length leaders.now
        → AreLike (listed_table table.now) q (slice_index_or leaders.now result 0) }
    ensures before { (c : ℕ) → c < result
        → AreLike (listed_table table.now) q (slice_index_or leaders.now c 0) → ⊥ }
{
    for c in 0..leaders.len() {
        if are_like(table, q, leaders[c]) {
            return c;
        }
    }
    leaders.len()
}

/// The states in classes by presence and acceptance.
pub fn start(alloc: Global, table: &Dta) -> Result<Classes, AllocError>
    ensures { IfOk result (λ c. IsRefined (listed_table table.now) c.of.items c.leaders.items) }
{
    let mut of = Vec::new(alloc);
    let mut leaders = Vec::new(alloc);
    for q in 0..table.states() {
        let place = place_among(table, leaders.as_slice(), q);
        if place == leaders.len() {
            leaders.push(q)?;
        }
        of.push(place as u32)?;
    }
    Ok(Classes { of, leaders })
}
