//! The closures that the parts of a formula ask for, as steps.
ghost use Rattle.std.specs.Prelude.{List, length, OnOk};
ghost use Rattle.fort_theory.specs.Cores as theory;
ghost use Rattle.fort_certificate_theory.specs.Dues.{closures_due};
ghost use Rattle.fort_certificate_theory.specs.Made.{MadeSoFar};
ghost use Rattle.fort_engine.specs.Closures.{AreClosures};
ghost use Rattle.fort_trace.specs.Recording.{AddsSteps};

use fort_engine::Closures;
use fort_steps::Step;
use fort_terms::System;
use std::alloc::{AllocError, Global};

/// The steps of all closures, in their order.
pub(crate) fn push_closures(
    alloc: Global,
    system: &System,
    closures: &Closures,
    steps: &mut Vec<Step>,
) -> Result<(), AllocError>
    ensures { OnOk result ((parts : List theory.Core) (made : MadeSoFar)
        → AreClosures system.now parts closures.now.list.items
        → AddsSteps system.now parts made (closures_due parts (length system.now.rules) 1)
        steps.old.items steps.new.items) }
{
    // A system keeps to the law of systems.
    let _lawful = system.signature();
    for closure in &closures.list {
        let entries = Vec::from_slice(alloc, &closure.entries)?;
        steps.push(Step::Closure(closure.which, closure.index, entries))?;
    }
    Ok(())
}
