//! The closed transducer.
ghost use Rattle.std.specs.Prelude.{◌↔◌, ℕ, IfOk};
ghost use Rattle.fort_theory.specs.Trees.{Tree};
ghost use Rattle.fort_theory.specs.Signatures.{Signature};
ghost use Rattle.fort_reachability.specs.Transducers.{FitsTransducer, Transduces};
ghost use Rattle.fort_reachability.specs.ClosureTables.{InClosure};
ghost use Rattle.fort_theory.specs.Rewriting.{ReducesThroughRoot};
ghost use Rattle.fort_transducers.specs.AgttView.{NamesItsStates, transducer_of};
ghost use Rattle.fort_transducers.specs.MoreMoves.{HasMoreMoves};
ghost use Rattle.fort_transducers.specs.Sizes.{KeepsSizes};
ghost use Rattle.fort_gtt_closure.specs.Reasons.{IsListed};
ghost use Rattle.fort_gtt_closure.specs.ClosedStates.{HasClosedStates};

use crate::added::{backward_moves, onward_moves};
use crate::entry::Closed;
use fort_transducers::Agtt;
use fort_tree_automata::Nta;
use std::alloc::{AllocError, Global};

/// The transducer with the silent moves of its closure: for a pair of a and b, on the left from a to
/// each state that b reaches, on the right from b to each state that reaches a.
pub fn closed_agtt(alloc: Global, agtt: &Agtt, closed: &Closed) -> Result<Agtt, AllocError>
    requires named { NamesItsStates agtt.now }
    requires table { (p q : ℕ) →
        IsListed closed.now.entries.items p q ↔ InClosure (transducer_of agtt.now) p q }
    ensures named { IfOk result NamesItsStates }
    ensures states { IfOk result (HasClosedStates agtt.now) }
    ensures sizes { IfOk result (KeepsSizes agtt.now) }
    ensures related { IfOk result (λ larger. (signature : Signature) →
        FitsTransducer signature (transducer_of agtt.now) → (s t : Tree) →
        Transduces signature (transducer_of larger) s t ↔
        ReducesThroughRoot (Transduces signature (transducer_of agtt.now)) s t) }
{
    let onward = onward_moves(alloc, closed, agtt.right.states, &agtt.pairs)?;
    let backward = backward_moves(alloc, closed, agtt.left.states, &agtt.pairs)?;
    let left = with_moves(alloc, &agtt.left, &onward)?;
    let right = with_moves(alloc, &agtt.right, &backward)?;
    let pairs = Vec::from_slice(alloc, &agtt.pairs)?;
    Ok(Agtt { left, right, pairs })
}

/// The automaton with more silent moves.
fn with_moves(alloc: Global, nta: &Nta, added: &[(u32, u32)]) -> Result<Nta, AllocError>
    ensures { IfOk result (λ larger. HasMoreMoves nta.now larger added.now) }
{
    let mut larger = nta.copy(alloc)?;
    larger.silent.extend_from_slice(added)?;
    Ok(larger)
}
