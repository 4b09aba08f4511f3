//! Whether there are numbers of 32 bits for what a check counts.
ghost use Rattle.std.specs.Prelude.{◌≡◌, ◌↔◌, ℕ, ◌+◌, ◌<◌, ◌^◌, List, map, length, IsTrue};
ghost use Rattle.fort_certificate_theory.specs.Certificates.{Part, Merge};
ghost use Rattle.fort_steps.specs.StepView.{as_step};
ghost use Rattle.fort_cert_checker.specs.Fronts.{HasFewTargets};

use fort_steps::Step;
use fort_terms::has_numbers;

fn has_few(step: &Step) -> bool
    ensures { IsTrue result ↔ (((k : ℕ) (targets : List ℕ) → as_step step.now ≡ Part k targets
        → length targets < 2 ^ 32) × ((k : ℕ) (classes : List ℕ)
        → as_step step.now ≡ Merge k classes → length classes < 2 ^ 32)) }
{
    match step {
        Step::Part(_, targets) => has_numbers(targets.len()),
        Step::Merge(_, classes) => has_numbers(classes.len()),
        _ => true,
    }
}

/// Whether each part has fewer targets and classes than there are numbers.
fn have_few(steps: &[Step]) -> bool
    ensures { IsTrue result ↔ HasFewTargets (map as_step steps.now) }
{
    for step in steps {
        if !has_few(step) {
            return false;
        }
    }
    true
}

/// Whether there are numbers for the forms of these steps, of which so many stand in front, and for one more.
fn has_forms(first: u32, steps: usize) -> bool
    ensures { IsTrue result ↔ (first + steps + 1 < 2 ^ 32) }
{
    has_numbers((first as usize).saturating_add(steps).saturating_add(1))
}

/// Whether there are numbers for so many parts, for the forms of a certificate, and for the targets and classes of its steps.
pub(crate) fn has_all_numbers(parts: usize, first: u32, steps: &[Step]) -> bool
    ensures { IsTrue result ↔ ((parts < 2 ^ 32) × (first + length steps.now + 1 < 2 ^ 32)
        × HasFewTargets (map as_step steps.now)) }
{
    has_numbers(parts) && has_forms(first, steps.len()) && have_few(steps)
}
