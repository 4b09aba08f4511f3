//! The answers of parts, as steps.
ghost use Rattle.std.specs.Prelude.{◌≡◌, ◌++◌, List, map, OnOk};
ghost use Rattle.fort_theory.specs.Cores as theory;
ghost use Rattle.fort_outline.specs.Roots.{root_core};
ghost use Rattle.fort_engine.specs.Found as found;
ghost use Rattle.fort_steps.specs.StepView.{as_step};
ghost use Rattle.fort_trace.specs.Recording.{merge_of, HasTargets, AnswerAdded};

use fort_engine::Last;
use fort_outline::Root;
use fort_steps::Step;
use std::alloc::AllocError;

fn is_negation(root: &Root) -> bool
    ensures { (parts : List theory.Core)
        → result ≡ found.is_negation (root_core parts root.now) }
{
    matches!(root, Root::Not(_))
}

/// The step of the classes of the table of part k, where it was reduced.
fn push_merge(k: u32, classes: Option<Vec<u32>>, steps: &mut Vec<Step>) -> Result<(), AllocError>
    ensures { OnOk result (map as_step steps.new.items
        ≡ map as_step steps.old.items ++ merge_of k classes) }
{
    if let Some(classes) = classes {
        steps.push(Step::Merge(k, classes))?;
    }
    Ok(())
}

/// The steps of the answer to part k, which has this root, these targets and, where it was reduced, these classes; a negation with
/// columns has none.
pub(crate) fn push_answer(
    k: u32,
    root: &Root,
    answer: &Last,
    targets: Option<Vec<u32>>,
    classes: Option<Vec<u32>>,
    steps: &mut Vec<Step>,
) -> Result<(), AllocError>
    requires { (parts : List theory.Core)
        × HasTargets (root_core parts root.now) answer.now targets }
    ensures { OnOk result ((parts : List theory.Core)
        → AnswerAdded k (root_core parts root.now) answer.now targets classes steps.old.items
        steps.new.items) }
{
    match answer {
        Last::Truth(value) => {
            steps.push(Step::Value(k, *value))?;
            Ok(())
        }
        Last::Auto(table) => {
            // its clauses say that the table is lawful
            let _laws = table.entries();
            if is_negation(root) {
                return Ok(());
            }
            let Some(targets) = targets else {
                unreachable!();
            };
            steps.push(Step::Part(k, targets))?;
            push_merge(k, classes, steps)
        }
    }
}
