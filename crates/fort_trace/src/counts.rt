//! The counts of "infinitely many", as steps.
ghost use Rattle.std.specs.Prelude.{OnOk};
ghost use Rattle.fort_trace.specs.Recording.{CountsPushed};

use fort_findings::Count;
use fort_steps::Step;
use std::alloc::AllocError;

/// The step of the counts of part k, where it has any.
pub(crate) fn push_counts(
    k: u32,
    counts: Option<Vec<Count>>,
    steps: &mut Vec<Step>,
) -> Result<(), AllocError>
    ensures { OnOk result (CountsPushed k counts steps.old.items steps.new.items) }
{
    if let Some(counts) = counts {
        steps.push(Step::Counts(k, counts))?;
    }
    Ok(())
}
