//! Expressions compiled to transducers.
ghost use Rattle.std.specs.Prelude.{◌↔◌, IfOk};
ghost use Rattle.fort_theory.specs.Trees.{Tree};
ghost use Rattle.fort_reachability.specs.Transducers.{Transduces};
ghost use Rattle.fort_theory.specs.Conditions.{MeansIn};
ghost use Rattle.fort_theory.specs.Expressions.{HasManyRoots};
ghost use Rattle.fort_parts.specs.DecidedCores.{IsExpressionOver};
ghost use Rattle.fort_relations.specs.RexView.{as_expression};
ghost use Rattle.fort_transducers.specs.AgttView.{NamesItsStates, transducer_of};
ghost use Rattle.fort_relation_exprs.specs.CompiledAgtt.{IsCompiledAgtt};
ghost use Rattle.fort_relation_exprs.specs.CompiledWithin.{CanCompile, IsCompiledWithin};

use crate::compiling_two::{compiled_composition, compiled_union};
use fort_gtt_closure::{close, closed_agtt};
use fort_relations::Rex;
use fort_terms::System;
use fort_transducers::{Agtt, inverse, root_steps};
use std::alloc::{AllocError, Global};

/// The transducer that relates what the expression means over the system. Its states are the
/// conditions of the expression: a ground term is taken to a left state where it meets that left
/// condition, to a right state where it meets that right condition, and each condition has a state.
pub fn compile(alloc: Global, system: &System, rex: &Rex) -> Result<Agtt, AllocError>
    requires over { IsExpressionOver system.now (as_expression rex.now) }
    requires narrow { HasManyRoots (as_expression rex.now) → ⊥ }
    ensures named { IfOk result NamesItsStates }
    ensures relates { IfOk result (λ agtt. (s t : Tree) →
        Transduces system.now.signature (transducer_of agtt) s t ↔
        MeansIn system.now (as_expression rex.now) s t) }
    ensures compiled { IfOk result (IsCompiledAgtt system.now (as_expression rex.now)) }
{
    // Fetches the law that a system keeps to.
    let _lawful = system.signature();
    compile_within(alloc, system, rex)
}

/// The same, with so few states, moves and pairs that all of them have numbers.
fn compile_within(alloc: Global, system: &System, rex: &Rex) -> Result<Agtt, AllocError>
    requires { CanCompile system.now (as_expression rex.now) }
    ensures { IfOk result (IsCompiledWithin system.now (as_expression rex.now)) }
{
    match rex {
        Rex::Root(index) => {
            let steps = root_steps(alloc, system, *index)?;
            Ok(steps)
        }
        Rex::Inv(e) => {
            let inner = compile_within(alloc, system, e.as_rex())?;
            let turned = inverse(alloc, &inner)?;
            Ok(turned)
        }
        Rex::Union(a, b) => {
            let one = compile_within(alloc, system, a.as_rex())?;
            let other = compile_within(alloc, system, b.as_rex())?;
            let both = compiled_union(alloc, &one, &other)?;
            Ok(both)
        }
        Rex::Comp(a, b) => {
            let first = compile_within(alloc, system, a.as_rex())?;
            let second = compile_within(alloc, system, b.as_rex())?;
            let composed = compiled_composition(alloc, &first, &second)?;
            Ok(composed)
        }
        Rex::Clos(e) => {
            let step = compile_within(alloc, system, e.as_rex())?;
            let table = close(alloc, &step)?;
            let closure = closed_agtt(alloc, &step, &table)?;
            Ok(closure)
        }
    }
}
