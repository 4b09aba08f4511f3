//! The expressions with two operands, from the transducers of the operands.
ghost use Rattle.std.specs.Prelude.{IfOk};
ghost use Rattle.fort_composition.specs.ComposedNumbers.{AreFew};
ghost use Rattle.fort_theory.specs.Expressions as expressions;
ghost use Rattle.fort_transducers.specs.AgttView.{NamesItsStates};
ghost use Rattle.fort_relation_exprs.specs.CompiledWithin.{IsMadeOfTwo};

use fort_composition::compose;
use fort_transducers::{Agtt, union};
use std::alloc::{AllocError, Global};

/// The transducer of a union.
pub(crate) fn compiled_union(alloc: Global, first: &Agtt, second: &Agtt) -> Result<Agtt, AllocError>
    requires first_named { NamesItsStates first.now }
    requires second_named { NamesItsStates second.now }
    requires few { AreFew first.now second.now }
    ensures { IfOk result (IsMadeOfTwo expressions.Union first.now second.now) }
{
    let both = union(alloc, first, second)?;
    Ok(both)
}

/// The transducer of a composition.
pub(crate) fn compiled_composition(
    alloc: Global,
    first: &Agtt,
    second: &Agtt,
) -> Result<Agtt, AllocError>
    requires first_named { NamesItsStates first.now }
    requires second_named { NamesItsStates second.now }
    requires few { AreFew first.now second.now }
    ensures { IfOk result (IsMadeOfTwo expressions.Composition first.now second.now) }
{
    let both = compose(alloc, first, second)?;
    Ok(both)
}
