//! The steps of a certificate, by what they are about.
ghost use Rattle.std.specs.Prelude.{◌≡◌, ℕ, ◌<◌, ◌^◌, List, Bool, map, length, slice_index_or, IfSome, IfNone, IfOk};
ghost use Rattle.fort_tables.specs.Counts as counts;
ghost use Rattle.fort_alike.specs.ListedClosures as closures;
ghost use Rattle.fort_certificate_theory.specs.Certificates as theory;
ghost use Rattle.fort_certificate_theory.specs.Dues as definitions;
ghost use Rattle.fort_certificate_theory.specs.Made.{same_which};
ghost use Rattle.fort_findings.specs.FindingView.{as_which, as_count, as_pair};
ghost use Rattle.fort_steps.specs.StepView.{as_step};
ghost use Rattle.fort_dues.specs.DueView.{as_due};
ghost use Rattle.fort_cert_checker.specs.Abouts as abouts;
ghost use Rattle.fort_cert_checker.specs.Abouts.{IsFirstAbout, IsOnlyAbout};
ghost use Rattle.fort_cert_checker.specs.Fronts.{HasFewTargets};
ghost use Rattle.fort_cert_checker.specs.Makings.{AreMergesMade};
ghost use Rattle.fort_cert_checker.specs.SameDue.{same_due};

use fort_dues::DueStep;
use fort_findings::{ClosureEntry, Count, Which};
use fort_steps::Step;
use std::alloc::{AllocError, Global};

fn is_which(which: Which, other: Which) -> bool
    ensures { result ≡ same_which (as_which which) (as_which other) }
{
    match which {
        Which::Star => match other {
            Which::Star => true,
            Which::Conv => false,
        },
        Which::Conv => match other {
            Which::Star => false,
            Which::Conv => true,
        },
    }
}

/// Whether a step is about this.
pub(crate) fn is_about(step: &Step, due: DueStep) -> bool
    ensures { result ≡ same_due (definitions.due_of (as_step step.now)) (as_due due) }
{
    match step {
        Step::Closure(which, index, _) => match due {
            DueStep::Closure(other, at) => is_which(*which, other) && *index == at,
            _ => false,
        },
        Step::Part(part, _) => match due {
            DueStep::Part(number) => *part == number,
            _ => false,
        },
        Step::Merge(part, _) => match due {
            DueStep::Merge(number) => *part == number,
            _ => false,
        },
        Step::Counts(part, _) => match due {
            DueStep::Counts(number) => *part == number,
            _ => false,
        },
        Step::Value(part, _) => match due {
            DueStep::Value(number) => *part == number,
            _ => false,
        },
    }
}

/// The first step about this.
fn step_about<'a>(steps: &'a [Step], due: DueStep) -> Option<&'a Step>
    ensures some { IfSome result (λ s. IsFirstAbout (map as_step steps.now) (as_due due)
        (as_step s.now)) }
    ensures none { IfNone result ((i : ℕ) (e : theory.Step) → i < length (map as_step steps.now)
        → definitions.due_of (slice_index_or (map as_step steps.now) i e) ≡ as_due due → ⊥) }
{
    for step in steps {
        if is_about(step, due) {
            return Some(step);
        }
    }
    None
}

fn targets_in<'a>(step: &'a Step) -> &'a [u32]
    ensures { result.now ≡ abouts.targets_in (as_step step.now) }
{
    match step {
        Step::Part(_, targets) => targets,
        _ => &[],
    }
}

/// The targets of a part, by its first step.
pub(crate) fn targets_of<'a>(steps: &'a [Step], k: u32) -> &'a [u32]
    ensures own { (targets : List ℕ) → IsOnlyAbout (map as_step steps.now)
        (theory.Part k targets) → result.now ≡ targets }
    ensures first { 0 < length result.now → (s : theory.Step)
        × IsFirstAbout (map as_step steps.now) (definitions.OfPart k) s
        × (result.now ≡ abouts.targets_in s) }
    ensures few { HasFewTargets (map as_step steps.now) → length result.now < 2 ^ 32 }
{
    match step_about(steps, DueStep::Part(k)) {
        Some(step) => targets_in(step),
        None => &[],
    }
}

fn classes_in<'a>(step: &'a Step) -> &'a [u32]
    ensures { result.now ≡ abouts.classes_in (as_step step.now) }
{
    match step {
        Step::Merge(_, classes) => classes,
        _ => &[],
    }
}

/// The classes of a part's states, by its first merge.
pub(crate) fn classes_of<'a>(steps: &'a [Step], k: u32) -> &'a [u32]
    ensures own { (classes : List ℕ) → IsOnlyAbout (map as_step steps.now)
        (theory.Merge k classes) → result.now ≡ classes }
    ensures few { HasFewTargets (map as_step steps.now) → length result.now < 2 ^ 32 }
{
    match step_about(steps, DueStep::Merge(k)) {
        Some(step) => classes_in(step),
        None => &[],
    }
}

fn begins_with_merge(steps: &[Step], k: u32) -> bool
    ensures { result ≡ definitions.begins_with_merge (map as_step steps.now) k }
{
    match steps.first() {
        Some(Step::Merge(part, _)) => *part == k,
        _ => false,
    }
}

/// Whether a merge of part `k` stands behind the first step of its targets.
pub(crate) fn is_merged(steps: &[Step], k: u32) -> bool
    ensures { result ≡ definitions.is_merged_in (map as_step steps.now) k }
{
    let mut rest = steps;
    'steps: while let Some((step, behind)) = rest.split_first() {
        if is_about(step, DueStep::Part(k)) {
            return begins_with_merge(behind, k);
        }
        rest = behind;
    }
    false
}

/// For each part whether it is merged.
pub(crate) fn merged_parts(
    alloc: Global,
    steps: &[Step],
    parts: usize,
) -> Result<Vec<bool>, AllocError>
    requires { parts < 2 ^ 32 }
    ensures { IfOk result (λ merges. AreMergesMade (map as_step steps.now) parts merges.items) }
{
    let mut merges = Vec::with_capacity(alloc, parts)?;
    for k in 0..parts {
        merges.push(is_merged(steps, k as u32))?;
    }
    Ok(merges)
}

pub(crate) fn value_in(step: &Step) -> bool
    ensures { result ≡ abouts.value_in (as_step step.now) }
{
    match step {
        Step::Value(_, value) => *value,
        _ => false,
    }
}

/// The value of a part, by its first step.
pub(crate) fn value_of(steps: &[Step], k: u32) -> bool
    ensures { (value : Bool) → IsOnlyAbout (map as_step steps.now) (theory.Value k value)
        → result ≡ value }
{
    match step_about(steps, DueStep::Value(k)) {
        Some(step) => value_in(step),
        None => false,
    }
}

fn marks_in<'a>(step: &'a Step) -> &'a [Count]
    ensures { map as_count result.now ≡ abouts.marks_in (as_step step.now) }
{
    match step {
        Step::Counts(_, marks) => marks,
        _ => &[],
    }
}

/// The marks of a part, by its first step with counts.
pub(crate) fn marks_of<'a>(steps: &'a [Step], k: u32) -> &'a [Count]
    ensures { (marks : List counts.Count) → IsOnlyAbout (map as_step steps.now)
        (theory.Counts k marks) → map as_count result.now ≡ marks }
{
    match step_about(steps, DueStep::Counts(k)) {
        Some(step) => marks_in(step),
        None => &[],
    }
}

fn pairs_in<'a>(step: &'a Step) -> &'a [ClosureEntry]
    ensures { map as_pair result.now ≡ abouts.items_in (as_step step.now) }
{
    match step {
        Step::Closure(_, _, entries) => entries,
        _ => &[],
    }
}

/// The pairs of a closure, by its first step.
pub(crate) fn closure_pairs<'a>(steps: &'a [Step], which: Which, index: u32) -> &'a [ClosureEntry]
    ensures { (items : List closures.Pair) → IsOnlyAbout (map as_step steps.now)
        (theory.Closure (as_which which) index items) → map as_pair result.now ≡ items }
{
    match step_about(steps, DueStep::Closure(which, index)) {
        Some(step) => pairs_in(step),
        None => &[],
    }
}
