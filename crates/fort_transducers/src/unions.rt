//! The transducer that relates what one of two transducers relates.
ghost use Rattle.std.specs.Prelude.{◌≡◌, ◌↔◌, ◌⊎◌, ◌<◌, ◌+◌, ◌^◌, IfOk};
ghost use Rattle.fort_theory.specs.Trees.{Tree};
ghost use Rattle.fort_theory.specs.Signatures.{Signature};
ghost use Rattle.fort_reachability.specs.Transducers.{Transduces};
ghost use Rattle.fort_transducers.specs.AgttView.{NamesItsStates, transducer_of};
ghost use Rattle.fort_transducers.specs.Sizes.{SumsSizes};
ghost use Rattle.fort_transducers.specs.UnionStates.{HasBothStates};

use crate::agtt::Agtt;
use crate::beside::{push_pairs, side_by_side};
use std::alloc::{AllocError, Global};

/// The two transducers side by side: the states of the second have numbers past those of the first.
pub fn union(alloc: Global, first: &Agtt, second: &Agtt) -> Result<Agtt, AllocError>
    requires first_named { NamesItsStates first.now }
    requires second_named { NamesItsStates second.now }
    requires few_left { first.now.left.states + second.now.left.states < 2 ^ 32 }
    requires few_right { first.now.right.states + second.now.right.states < 2 ^ 32 }
    ensures left { IfOk result (λ union.
        union.left.states ≡ first.now.left.states + second.now.left.states) }
    ensures right { IfOk result (λ union.
        union.right.states ≡ first.now.right.states + second.now.right.states) }
    ensures named { IfOk result NamesItsStates }
    ensures sizes { IfOk result (SumsSizes first.now second.now) }
    ensures lefts { IfOk result (λ union.
        HasBothStates first.now.left second.now.left union.left) }
    ensures rights { IfOk result (λ union.
        HasBothStates first.now.right second.now.right union.right) }
    ensures related { IfOk result (λ union. (signature : Signature) (s t : Tree) →
        Transduces signature (transducer_of union) s t ↔
        (Transduces signature (transducer_of first.now) s t ⊎
        Transduces signature (transducer_of second.now) s t)) }
{
    let left = side_by_side(alloc, &first.left, &second.left)?;
    let right = side_by_side(alloc, &first.right, &second.right)?;
    let mut pairs = Vec::from_slice(alloc, &first.pairs)?;
    push_pairs(
        &second.pairs,
        first.left.states,
        first.right.states,
        &mut pairs,
    )?;
    Ok(Agtt { left, right, pairs })
}
