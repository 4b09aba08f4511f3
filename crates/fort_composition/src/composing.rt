//! The transducer that relates what two transducers compose to.
ghost use Rattle.std.specs.Prelude.{◌≡◌, ◌<◌, ◌+◌, ◌^◌, [], IfOk};
ghost use Rattle.fort_theory.specs.Signatures.{Signature};
ghost use Rattle.fort_reachability.specs.Transducers.{FitsTransducer};
ghost use Rattle.fort_tree_automata.specs.NtaView as automata;
ghost use Rattle.fort_tree_automata.specs.Copies.{IsCopy};
ghost use Rattle.fort_transducers.specs.AgttView.{NamesItsStates, transducer_of};
ghost use Rattle.fort_transducers.specs.Sizes.{SumsSizes};
ghost use Rattle.fort_composition.specs.Across.{AreAcross, AreBesideAcross};
ghost use Rattle.fort_composition.specs.ComposedNumbers.{AreFew, IsCompositionOf};

use fort_gtt_closure::{backward_moves, close, onward_moves};
use fort_transducers::{Agtt, push_pairs, side_by_side};
use fort_tree_automata::Nta;
use std::alloc::{AllocError, Global};

/// The composition: a pair of one of the two at the root, and pairs of the other in any number of
/// holes of a context, the first's before the second's. On the left the states of the second have
/// numbers past those of the first, on the right the other way round.
pub fn compose(alloc: Global, first: &Agtt, second: &Agtt) -> Result<Agtt, AllocError>
    requires first_named { NamesItsStates first.now }
    requires second_named { NamesItsStates second.now }
    requires few { AreFew first.now second.now }
    ensures named { IfOk result NamesItsStates }
    ensures left { IfOk result (λ both.
        both.left.states ≡ first.now.left.states + second.now.left.states) }
    ensures right { IfOk result (λ both.
        both.right.states ≡ second.now.right.states + first.now.right.states) }
    ensures sizes { IfOk result (λ both. SumsSizes first.now second.now both) }
    ensures composition { IfOk result (λ both. (signature : Signature) →
        FitsTransducer signature (transducer_of first.now) →
        FitsTransducer signature (transducer_of second.now) →
        IsCompositionOf first.now second.now both signature) }
{
    let shared = meeting(alloc, &first.right, &second.left)?;
    let table = close(alloc, &shared)?;
    let onward = onward_moves(alloc, &table, first.right.states, &first.pairs)?;
    let left = across(alloc, &first.left, &second.left, &onward)?;
    let backward = backward_moves(alloc, &table, second.left.states, &second.pairs)?;
    let right = across(alloc, &second.right, &first.right, &backward)?;
    let mut pairs = Vec::new(alloc);
    push_pairs(&first.pairs, 0, second.right.states, &mut pairs)?;
    push_pairs(&second.pairs, first.left.states, 0, &mut pairs)?;
    Ok(Agtt { left, right, pairs })
}

/// A transducer without pairs: its closure has the states that share a ground term.
fn meeting(alloc: Global, rights: &Nta, lefts: &Nta) -> Result<Agtt, AllocError>
    ensures left { IfOk result (λ m. IsCopy lefts.now m.left) }
    ensures right { IfOk result (λ m. IsCopy rights.now m.right) }
    ensures pairs { IfOk result (λ m. m.pairs.items ≡ []) }
{
    Ok(Agtt {
        left: lefts.copy(alloc)?,
        right: rights.copy(alloc)?,
        pairs: Vec::new(alloc),
    })
}

/// The automata side by side, with silent moves from states of the first to states of the second.
fn across(
    alloc: Global,
    first: &Nta,
    second: &Nta,
    crossing: &[(u32, u32)],
) -> Result<Nta, AllocError>
    requires named { automata.NamesItsStates second.now }
    requires few { first.now.states + second.now.states < 2 ^ 32 }
    requires across { AreAcross first.now second.now crossing.now }
    ensures { IfOk result (λ both. AreBesideAcross first.now second.now both crossing.now) }
{
    let mut both = side_by_side(alloc, first, second)?;
    push_pairs(crossing, 0, first.states, &mut both.silent)?;
    Ok(both)
}
