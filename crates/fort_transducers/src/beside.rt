//! Two automata side by side.
ghost use Rattle.std.specs.Prelude.{◌≡◌, ◌<◌, ◌+◌, ◌^◌, ◌++◌, ℕ, Contains, IfOk, OnOk, Some, map};
ghost use Rattle.fort_tree_automata.specs.NtaView as automata;
ghost use Rattle.fort_tree_automata.specs.NtaView.{as_move};
ghost use Rattle.fort_transducers.specs.Unions.{AreBeside, any_steps, joined_any, shifted_move};

use fort_tree_automata::{Move, Nta};
use std::alloc::{AllocError, Global};

/// The automata side by side. There is one state `any` at most: where both have one, the first's
/// stays, and a silent move leads from it to the second's, which so takes every term too.
pub fn side_by_side(alloc: Global, first: &Nta, second: &Nta) -> Result<Nta, AllocError>
    requires named { automata.NamesItsStates second.now }
    requires few { first.now.states + second.now.states < 2 ^ 32 }
    ensures { IfOk result (AreBeside first.now second.now) }
{
    let by = first.states;
    let mut both = first.copy(alloc)?;
    push_moves(alloc, &second.moves, by, &mut both.moves)?;
    push_pairs(&second.silent, by, by, &mut both.silent)?;
    push_any_step(by, first.any, second.any, &mut both.silent)?;
    both.any = joined_any(by, first.any, second.any);
    both.states += second.states;
    Ok(both)
}

/// Adds the pairs with their states shifted.
pub fn push_pairs(
    pairs: &[(u32, u32)],
    first_by: u32,
    second_by: u32,
    joined: &mut Vec<(u32, u32)>,
) -> Result<(), AllocError>
    requires { (p q : ℕ) → Contains pairs.now (p, q) →
        (p + first_by < 2 ^ 32) × (q + second_by < 2 ^ 32) }
    ensures { OnOk result (joined.new.items ≡ joined.old.items ++
        map (λ p. (p.0 + first_by, p.1 + second_by)) pairs.now) }
{
    for pair in pairs {
        joined.push((pair.0 + first_by, pair.1 + second_by))?;
    }
    Ok(())
}

fn joined_any(by: u32, first: Option<u32>, second: Option<u32>) -> Option<u32>
    requires { (q : ℕ) → second ≡ Some q → q + by < 2 ^ 32 }
    ensures { result ≡ joined_any by first second }
{
    match (first, second) {
        (Some(state), _) => Some(state),
        (None, Some(state)) => Some(state + by),
        (None, None) => None,
    }
}

fn push_any_step(
    by: u32,
    first: Option<u32>,
    second: Option<u32>,
    silent: &mut Vec<(u32, u32)>,
) -> Result<(), AllocError>
    requires { (q : ℕ) → second ≡ Some q → q + by < 2 ^ 32 }
    ensures { OnOk result (silent.new.items ≡ silent.old.items ++ any_steps by first second) }
{
    if let (Some(from), Some(to)) = (first, second) {
        silent.push((from, to + by))?;
    }
    Ok(())
}

/// Adds the moves with their states shifted.
fn push_moves(
    alloc: Global,
    moves: &[Move],
    by: u32,
    joined: &mut Vec<Move>,
) -> Result<(), AllocError>
    requires kids { (m : automata.MoveParts) → Contains (map as_move moves.now) m →
        (q : ℕ) → Contains m.1 q → q + by < 2 ^ 32 }
    requires target { (m : automata.MoveParts) → Contains (map as_move moves.now) m →
        m.2 + by < 2 ^ 32 }
    ensures { OnOk result (map as_move joined.new.items ≡
        map as_move joined.old.items ++ map (shifted_move by) (map as_move moves.now)) }
{
    for step in moves {
        joined.push(Move {
            sym: step.sym,
            kids: shifted(alloc, &step.kids, by)?,
            target: step.target + by,
        })?;
    }
    Ok(())
}

fn shifted(alloc: Global, states: &[u32], by: u32) -> Result<Vec<u32>, AllocError>
    requires { (q : ℕ) → Contains states.now q → q + by < 2 ^ 32 }
    ensures { IfOk result (λ moved. moved.items ≡ map (λ q. q + by) states.now) }
{
    let mut moved = Vec::new(alloc);
    for state in states {
        moved.push(*state + by)?;
    }
    Ok(moved)
}
