//! The silent moves that a closure adds.
ghost use Rattle.std.specs.Prelude.{◌≡◌, ◌<◌, ◌++◌, ℕ, Contains, IfOk, OnOk, map};
ghost use Rattle.fort_gtt_closure.specs.Added.{AreBackward, AreOnward};
ghost use Rattle.fort_gtt_closure.specs.Groups.{AreByFirst, through};

use crate::entry::{Closed, Entry};
use crate::groups::{Groups, grouped};
use fort_transducers::exchanged;
use std::alloc::{AllocError, Global};

/// For each pair of a and b the moves from a to each state that b reaches. The right states are
/// below the count.
pub fn onward_moves(
    alloc: Global,
    closed: &Closed,
    count: u32,
    pairs: &[(u32, u32)],
) -> Result<Vec<(u32, u32)>, AllocError>
    requires { (a b : ℕ) → Contains pairs.now (a, b) → b < count }
    ensures { IfOk result (λ moves.
        AreOnward closed.now.entries.items pairs.now moves.items) }
{
    let reached = right_to_left(alloc, &closed.entries)?;
    let groups = grouped(alloc, count, &reached)?;
    through(alloc, pairs, &groups)
}

/// For each pair of a and b the moves from b to each state that reaches a. The left states are
/// below the count.
pub fn backward_moves(
    alloc: Global,
    closed: &Closed,
    count: u32,
    pairs: &[(u32, u32)],
) -> Result<Vec<(u32, u32)>, AllocError>
    requires { (a b : ℕ) → Contains pairs.now (a, b) → a < count }
    ensures { IfOk result (λ moves.
        AreBackward closed.now.entries.items pairs.now moves.items) }
{
    let listed = right_to_left(alloc, &closed.entries)?;
    let reaching = exchanged(alloc, &listed)?;
    let groups = grouped(alloc, count, &reaching)?;
    let turned = exchanged(alloc, pairs)?;
    through(alloc, &turned, &groups)
}

/// The right and the left state of each entry.
fn right_to_left(alloc: Global, entries: &[Entry]) -> Result<Vec<(u32, u32)>, AllocError>
    ensures { IfOk result (λ ps. ps.items ≡ map (λ e. (e.p, e.q)) entries.now) }
{
    let mut states = Vec::new(alloc);
    for entry in entries {
        states.push((entry.p, entry.q))?;
    }
    Ok(states)
}

/// From the first of each pair to what the group of its second has.
fn through(
    alloc: Global,
    pairs: &[(u32, u32)],
    groups: &Groups,
) -> Result<Vec<(u32, u32)>, AllocError>
    ensures { IfOk result (λ moves. moves.items ≡ through groups.now pairs.now) }
{
    let mut moves = Vec::new(alloc);
    for pair in pairs {
        push_from(pair.0, groups.get(pair.1), &mut moves)?;
    }
    Ok(moves)
}

fn push_from(from: u32, group: &[(u32, u32)], moves: &mut Vec<(u32, u32)>) -> Result<(), AllocError>
    ensures { OnOk result
        (moves.new.items ≡ moves.old.items ++ map (λ link. (from, link.1)) group.now) }
{
    for link in group {
        moves.push((from, link.1))?;
    }
    Ok(())
}
