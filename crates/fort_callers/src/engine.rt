//! Whether a closed core formula is true.
ghost use Rattle.std.specs.Prelude.{false, Decides, IfOk, IfErr};
ghost use Rattle.fort_theory.specs.CoreTruth.{Places, IsMetBy};
ghost use Rattle.fort_theory.specs.Parts.{IsClosed};
ghost use Rattle.fort_theory.specs.PatternStructures.{pattern_structure};
ghost use Rattle.fort_formulas.specs.CoreView.{as_core};
ghost use Rattle.fort_parts.specs.DecidedCores.{IsDecided};
ghost use Rattle.fort_parts.specs.PartAnswers.{AreGround};
ghost use Rattle.fort_engine.specs.AnswerView.{IfOver, IsLimit};

use fort_engine::{EngineFault, Last, decide_core};
use fort_formulas::Core;
use fort_terms::System;
use std::alloc::Global;

/// Whether a closed core formula is true of all ground terms, by tables of at most so many states.
pub fn is_true(alloc: Global, system: &System, core: &Core, cap: u32) -> Result<bool, EngineFault>
    requires decided { IsDecided system.now (as_core core.now) }
    requires closed { IsClosed (as_core core.now) }
    ensures truth { IfOk result (λ b. (v : Places) → AreGround system.now.signature v
        → Decides b (IsMetBy (pattern_structure system.now) (as_core core.now) v)) }
    ensures over { IfErr result (λ e. IfOver e
        (IsLimit system.now false (as_core core.now) cap)) }
{
    match decide_core(alloc, system, core, cap) {
        Ok(trace) => match trace.last {
            Last::Truth(truth) => Ok(truth),
            Last::Auto(_) => unreachable!(),
        },
        Err(fault) => Err(fault),
    }
}
