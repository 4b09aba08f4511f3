//! What may come to follow by a pair that is listed: the moves, silent moves and pairs by the states
//! that they lead from.
ghost use Rattle.std.specs.Prelude.{◌≡◌, ◌<◌, ◌^◌, ℕ, [], Contains, IfOk, OnOk, length};
ghost use Rattle.fort_tree_automata.specs.declared.nta.Move.{Move};
ghost use Rattle.fort_gtt_closure.specs.Groups.{group, lists};
ghost use Rattle.fort_gtt_closure.specs.Links.{AreUses, Leads};
ghost use Rattle.fort_gtt_closure.specs.Reasons.{IsNumbered};
ghost use Rattle.fort_gtt_closure.specs.Scans.{targets};

use crate::groups::{Groups, grouped};
use fort_transducers::Agtt;
use fort_tree_automata::Move;
use std::alloc::{AllocError, Global};

/// The uses of the right and of the left states, in groups under them.
#[derive(Drop)]
pub(crate) struct Links {
    /// For a right state its right moves: it, and their places.
    pub(crate) right_targets: Groups,
    /// For a left state its left moves: it, and their places.
    pub(crate) left_targets: Groups,
    /// For a child of right moves their symbols and targets.
    pub(crate) right_uses: Groups,
    /// For a child of left moves their symbols and targets.
    pub(crate) left_uses: Groups,
    /// For a right state the silent moves from it.
    pub(crate) right_silent: Groups,
    /// For a left state the silent moves from it.
    pub(crate) left_silent: Groups,
    /// For a left state its pairs.
    pub(crate) pairs: Groups,
}

impl Links {
    pub(crate) fn new(alloc: Global, agtt: &Agtt) -> Result<Links, AllocError>
        requires { IsNumbered agtt.now }
        ensures { IfOk result (Leads agtt.now) }
    {
        let right = &agtt.right;
        let left = &agtt.left;
        let right_targets = targets(alloc, &right.moves)?;
        let left_targets = targets(alloc, &left.moves)?;
        Ok(Links {
            right_targets: grouped(alloc, right.states, &right_targets)?,
            left_targets: grouped(alloc, left.states, &left_targets)?,
            right_uses: uses(alloc, right.states, &right.moves)?,
            left_uses: uses(alloc, left.states, &left.moves)?,
            right_silent: grouped(alloc, right.states, &right.silent)?,
            left_silent: grouped(alloc, left.states, &left.silent)?,
            pairs: grouped(alloc, left.states, &agtt.pairs)?,
        })
    }
}

/// The targets of the moves with the moves' places.
fn targets(alloc: Global, moves: &[Move]) -> Result<Vec<(u32, u32)>, AllocError>
    requires { length moves.now < 2 ^ 32 }
    ensures { IfOk result (λ found. found.items ≡ targets 0 moves.now) }
{
    let mut found = Vec::new(alloc);
    for (k, step) in moves.iter().enumerate() {
        found.push((step.target, k as u32))?;
    }
    Ok(found)
}

/// For each state the symbols and the targets of the moves that have it as a child.
fn uses(alloc: Global, states: u32, moves: &[Move]) -> Result<Groups, AllocError>
    ensures { IfOk result (AreUses states moves.now) }
{
    let mut groups = Groups::new(alloc, states)?;
    for step in moves {
        push_uses(&mut groups, &step.kids, (step.sym.0 as u32, step.target))?;
    }
    Ok(groups)
}

fn push_uses(groups: &mut Groups, kids: &[u32], pair: (u32, u32)) -> Result<(), AllocError>
    ensures count { OnOk result (length (lists groups.new) ≡ length (lists groups.old)) }
    ensures kept { OnOk result ((state : ℕ) (other : ℕ × ℕ) →
        Contains (group groups.old state) other → Contains (group groups.new state) other) }
    ensures added { OnOk result ((state : ℕ) → Contains kids.now state →
        state < length (lists groups.old) → Contains (group groups.new state) pair) }
{
    for kid in kids {
        groups.push(*kid, pair)?;
    }
    Ok(())
}

/// The symbols and the targets of the moves from no states.
pub(crate) fn leaves(alloc: Global, moves: &[Move]) -> Result<Vec<(u32, u32)>, AllocError>
    ensures { IfOk result (λ found. (step : Move) → Contains moves.now step →
        step.kids.items ≡ [] → Contains found.items (step.sym.0, step.target)) }
{
    let mut found = Vec::new(alloc);
    for step in moves {
        if step.kids.is_empty() {
            found.push((step.sym.0 as u32, step.target))?;
        }
    }
    Ok(found)
}
