//! States that are marked in a list of truths, one for each state.
ghost use Rattle.std.specs.Prelude.{◌≡◌, ℕ, ◌↔◌, ◌⊎◌, Contains, IfOk, OnOk, length, map, count_by, slice_index_or, false, replicate, vec_items};
ghost use Rattle.fort_tree_automata.specs.NtaView.{as_move};
ghost use Rattle.fort_tree_automata.specs.Marks.{IsSettled, all_marked, with_any, with_moves, with_silent};
ghost use Rattle.fort_tree_automata.specs.InhabitedStates.{IsMarked};

use crate::nta::Move;
use std::alloc::{AllocError, Global};
use std::collections::BTreeSet;

pub(crate) fn is_marked(flags: &[bool], state: u32) -> bool
    ensures { result ≡ slice_index_or flags.now state false }
{
    (state as usize) < flags.len() && flags[state as usize]
}

pub(crate) fn all_marked(flags: &[bool], states: &[u32]) -> bool
    ensures { result ≡ all_marked flags.now states.now }
{
    states.iter().all(|state| is_marked(flags, *state))
}

pub(crate) fn count_marked(flags: &[bool]) -> usize
    ensures { result ≡ count_by (λ b. b) flags.now }
{
    flags.iter().filter(|b| **b).count()
}

/// Marks the state that takes every term.
pub(crate) fn mark_any(flags: &mut Vec<bool>, any: Option<u32>)
    ensures { flags.new.items ≡ with_any flags.old.items any }
{
    if let Some(state) = any {
        if (state as usize) < flags.len() {
            flags[state as usize] = true;
        }
    }
}

/// Goes over the moves once.
pub(crate) fn mark_by_moves(flags: &mut Vec<bool>, moves: &[Move])
    ensures { flags.new.items ≡ with_moves (map as_move moves.now) flags.old.items }
{
    for step in moves {
        if (step.target as usize) < flags.len() && all_marked(flags, &step.kids) {
            flags[step.target as usize] = true;
        }
    }
}

/// Goes over the silent moves once.
pub(crate) fn mark_by_silent(flags: &mut Vec<bool>, silent: &[(u32, u32)])
    ensures { flags.new.items ≡ with_silent silent.now flags.old.items }
{
    for (from, to) in silent {
        if (*to as usize) < flags.len() && is_marked(flags, *from) {
            flags[*to as usize] = true;
        }
    }
}

/// Goes over the silent moves until nothing changes.
pub(crate) fn settle(flags: &mut Vec<bool>, silent: &[(u32, u32)])
    ensures { IsSettled (with_silent silent.now) flags.old.items flags.new.items }
{
    loop {
        let before = count_marked(flags);
        mark_by_silent(flags, silent);
        if count_marked(flags) == before {
            return;
        }
    }
}

/// The marked states as a set.
pub(crate) fn marked_set(
    alloc: Global,
    flags: &[bool],
    states: u32,
) -> Result<BTreeSet<u32>, AllocError>
    requires { length flags.now ≡ states }
    ensures { IfOk result (λ found. (q : ℕ) → Contains found.keys q ↔ IsMarked flags.now q) }
{
    let mut found = BTreeSet::new(alloc);
    for state in 0..states {
        insert_marked(flags, state, &mut found)?;
    }
    Ok(found)
}

fn insert_marked(flags: &[bool], state: u32, found: &mut BTreeSet<u32>) -> Result<(), AllocError>
    ensures { OnOk result ((q : ℕ) → Contains found.new.keys q ↔
        (Contains found.old.keys q ⊎ ((state ≡ q) × IsMarked flags.now q))) }
{
    if is_marked(flags, state) {
        found.insert(state)?;
    }
    Ok(())
}
