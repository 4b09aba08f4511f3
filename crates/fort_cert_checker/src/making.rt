//! What a check needs, taken before it: the rules of closures, the plans of parts, and room.
ghost use Rattle.std.specs.Prelude.{◌≡◌, ℕ, ◌<◌, ◌^◌, List, map, length, Contains, Option, true, IfOk, IfSome, IfNone};
ghost use Rattle.fort_theory.specs.Sides.{IsIndexOf};
ghost use Rattle.fort_theory.specs.Cores as theory;
ghost use Rattle.fort_alike.specs.ListedClosures as listed_closures;
ghost use Rattle.fort_certificate_theory.specs.Certificates.{Part};
ghost use Rattle.fort_certificate_theory.specs.Dues as definitions;
ghost use Rattle.fort_outline.specs.Outlines.{IsOutlineOf, parts_in};
ghost use Rattle.fort_findings.specs.FindingView.{as_which};
ghost use Rattle.fort_steps.specs.StepView.{as_step};
ghost use Rattle.fort_dues.specs.DueView.{as_due};
ghost use Rattle.fort_check_steps.specs.Room.{HasNeeds, HasLeaderRoom, IsListFor};
ghost use Rattle.fort_cert_checker.specs.OperandLists.{AreNeedsOf};
ghost use Rattle.fort_check_steps.specs.Marks.{HasMarkRoom};
ghost use Rattle.fort_cert_checker.specs.Abouts.{IsOnlyAbout};
ghost use Rattle.fort_cert_checker.specs.PartStates.{IsStatesOf};
ghost use Rattle.fort_cert_checker.specs.Plans.{IsFitPart, IsWidthFor};
ghost use Rattle.fort_cert_checker.specs.Pasts.{IsMarkRoomFor};
ghost use Rattle.fort_cert_checker.specs.Fronts.{HasFewTargets};
ghost use Rattle.fort_cert_checker.specs.Makings.{IsClosurePlan, IsClosureFor, IsScratchFor, HasTooManyWords, AreClosuresMade, ArePlansMade, AreRoomsMade, IsScratchMade, AreMarksMade};

use crate::about::{classes_of, is_merged, targets_of};
use crate::plan::{Plan, Source, Work};
use fort_check_steps::{
    LabelNeeds, LabelRoom, ListNeeds, MarkRoom, PairRules, PartRoom, closure_rules, most_states,
};
use fort_dues::DueStep;
use fort_findings::Which;
use fort_infinity::local::many_width;
use fort_outline::Outline;
use fort_projections::local::project_width;
use fort_steps::Step;
use fort_terms::System;
use std::alloc::{AllocError, Global};

/// What a closure is checked by, with a bit for each of its pairs.
#[derive(Drop)]
pub(crate) struct ClosurePlan {
    pub rules: PairRules,
    pub listed: Vec<u64>,
}

fn closure_plan(
    alloc: Global,
    system: &System,
    which: Which,
    index: u32,
) -> Result<ClosurePlan, AllocError>
    requires { IsIndexOf system.now.rules index }
    ensures { IfOk result (IsClosurePlan system.now (as_which which) index) }
{
    let rules = closure_rules(alloc, system, which, index)?;
    let bits = rules.rights.len() * rules.lefts.len();
    let listed = vec![in alloc; 0u64; bits.div_ceil(64)]?;
    Ok(ClosurePlan { rules, listed })
}

fn plan_for(alloc: Global, system: &System, due: DueStep) -> Result<Option<ClosurePlan>, AllocError>
    requires { (which : listed_closures.Which) (index : ℕ)
        → as_due due ≡ definitions.OfClosure which index → IsIndexOf system.now.rules index }
    ensures { IfOk result (IsClosureFor system.now (as_due due)) }
{
    match due {
        DueStep::Closure(which, index) => {
            let plan = closure_plan(alloc, system, which, index)?;
            Ok(Some(plan))
        }
        _ => Ok(None),
    }
}

/// For each step that is due, what it is checked by where it is a closure.
pub(crate) fn closure_plans(
    alloc: Global,
    system: &System,
    dues: &[DueStep],
) -> Result<Vec<Option<ClosurePlan>>, AllocError>
    requires { (which : listed_closures.Which) (index : ℕ)
        → Contains (map as_due dues.now) (definitions.OfClosure which index)
        → IsIndexOf system.now.rules index }
    ensures { IfOk result (λ plans. AreClosuresMade system.now (map as_due dues.now)
        (length dues.now) plans.items) }
{
    let mut plans = Vec::with_capacity(alloc, dues.len())?;
    for due in dues {
        plans.push(plan_for(alloc, system, *due)?)?;
    }
    Ok(plans)
}

/// The plan of each part.
pub(crate) fn plans_of(
    alloc: Global,
    system: &System,
    steps: &[Step],
    outline: &Outline,
) -> Result<Vec<Plan>, AllocError>
    requires outline { (f : theory.Core) × IsOutlineOf f outline.now }
    requires few { length outline.now.roots.items < 2 ^ 32 }
    requires fit { (f : theory.Core) → Contains (parts_in outline.now) f
        → IsFitPart system.now f }
    ensures { IfOk result (λ plans. ArePlansMade system.now (parts_in outline.now)
        (map as_step steps.now) (length (parts_in outline.now)) plans.items) }
{
    let mut plans = Vec::with_capacity(alloc, outline.roots.len())?;
    for k in 0..outline.roots.len() {
        plans.push(Plan::new(alloc, system, steps, outline, k)?)?;
    }
    Ok(plans)
}

/// How many states the table of a source has: as many as its targets make, or where it is merged as its classes.
fn states_of(steps: &[Step], source: Source) -> usize
    requires { HasFewTargets (map as_step steps.now) }
    ensures few { result < 2 ^ 32 }
    ensures states { (states : ℕ) → IsStatesOf (map as_step steps.now) source.part states
        → result ≡ states }
{
    if is_merged(steps, source.part) {
        most_states(classes_of(steps, source.part))
    } else {
        most_states(targets_of(steps, source.part))
    }
}

/// The words of the labels of a part.
fn width_of(steps: &[Step], plan: &Plan) -> usize
    requires { HasFewTargets (map as_step steps.now) }
    ensures { IsWidthFor (map as_step steps.now) plan.now.work result }
{
    match &plan.work {
        Work::Atom(labels) => labels.width(),
        Work::Product(_, _, _) => 3,
        Work::Projection(source, _) => project_width(states_of(steps, *source)),
        Work::Many(source, _, _) => many_width(states_of(steps, *source)),
        Work::Truth | Work::Negation(_) => 1,
    }
}

/// The room of each part.
pub(crate) fn rooms_of(
    alloc: Global,
    steps: &[Step],
    parts: usize,
) -> Result<Vec<PartRoom>, AllocError>
    requires { parts < 2 ^ 32 }
    ensures { IfOk result (λ rooms. AreRoomsMade (map as_step steps.now) parts rooms.items) }
{
    let mut rooms = Vec::with_capacity(alloc, parts)?;
    for k in 0..parts {
        let part = k as u32;
        let room = PartRoom::new(alloc, targets_of(steps, part), is_merged(steps, part))?;
        rooms.push(room)?;
    }
    Ok(rooms)
}

/// What the list of a source's targets needs.
pub(crate) fn list_of(steps: &[Step], source: Source) -> ListNeeds
    ensures list { (targets : List ℕ)
        → IsOnlyAbout (map as_step steps.now) (Part source.part targets)
        → IsListFor targets result }
    ensures few { HasFewTargets (map as_step steps.now) → result.targets < 2 ^ 32 }
{
    let targets = targets_of(steps, source.part);
    ListNeeds {
        states: most_states(targets),
        targets: targets.len(),
    }
}

/// What the lists of a part's operands need.
fn list_needs(steps: &[Step], plan: &Plan) -> (ListNeeds, ListNeeds)
    ensures { AreNeedsOf (map as_step steps.now) plan.now.work result.0 result.1 }
{
    match &plan.work {
        Work::Product(_, first, second) => {
            (list_of(steps, first.source), list_of(steps, second.source))
        }
        Work::Projection(source, _) => (list_of(steps, *source), ListNeeds::default()),
        Work::Many(source, _, _) => (list_of(steps, *source), ListNeeds::default()),
        _ => (ListNeeds::default(), ListNeeds::default()),
    }
}

/// What the check of the classes of a table with these targets needs, where it is merged.
fn merge_needs(targets: &[u32], merges: bool) -> LabelNeeds
    ensures { merges ≡ true → (scratch : LabelRoom) → HasNeeds result scratch
        → HasLeaderRoom targets.now scratch }
{
    if !merges {
        return LabelNeeds::default();
    }
    let states = most_states(targets);
    let own = ListNeeds {
        states,
        targets: targets.len(),
    };
    let listed = LabelNeeds::default().with_lists(own, ListNeeds::default());
    listed.with_leaders(states)
}

/// What the labels of part `k` need, the lists of its operands, and the check of its classes; or none where there are more words than
/// numbers for them.
fn label_needs(steps: &[Step], k: u32, plan: &Plan) -> Option<LabelNeeds>
    requires { HasFewTargets (map as_step steps.now) }
    ensures some { IfSome result (λ needs. (scratch : LabelRoom) → HasNeeds needs scratch
        → IsScratchFor (map as_step steps.now) k plan.now scratch) }
    ensures none { IfNone result (HasTooManyWords (map as_step steps.now) k plan.now.work) }
{
    let targets = targets_of(steps, k);
    let states = most_states(targets);
    let Some(needs) = LabelNeeds::new(width_of(steps, plan), states) else {
        return None;
    };
    let (first, second) = list_needs(steps, plan);
    let listed = needs.with_lists(first, second);
    let merge = merge_needs(targets, is_merged(steps, k));
    Some(listed.max(merge))
}

/// Room for the labels of each part in its turn, for its operands' lists, and for its classes. More words of a part's labels than there are numbers for
/// are want of memory.
pub(crate) fn scratch_for(
    alloc: Global,
    steps: &[Step],
    plans: &[Plan],
) -> Result<LabelRoom, AllocError>
    requires few { length plans.now < 2 ^ 32 }
    requires few_targets { HasFewTargets (map as_step steps.now) }
    ensures { IfOk result (IsScratchMade (map as_step steps.now) plans.now (length plans.now)) }
{
    let mut needs = LabelNeeds::default();
    for k in 0..plans.len() {
        let Some(own) = label_needs(steps, k as u32, &plans[k]) else {
            return Err(AllocError);
        };
        needs = needs.max(own);
    }
    LabelRoom::new(alloc, needs)
}

fn mark_room(alloc: Global, states: usize, marks: usize) -> Result<MarkRoom, AllocError>
    ensures { IfOk result (HasMarkRoom states marks) }
{
    Ok(MarkRoom {
        states: Vec::with_capacity(alloc, states)?,
        holds: Vec::with_capacity(alloc, marks)?,
    })
}

fn marks_for(alloc: Global, steps: &[Step], plan: &Plan) -> Result<MarkRoom, AllocError>
    requires { HasFewTargets (map as_step steps.now) }
    ensures { IfOk result (IsMarkRoomFor (map as_step steps.now) plan.now.work) }
{
    match &plan.work {
        Work::Projection(source, _) => mark_room(alloc, states_of(steps, *source), 0),
        Work::Many(source, _, marks) => mark_room(alloc, states_of(steps, *source), marks.len()),
        _ => mark_room(alloc, 0, 0),
    }
}

/// For each part room for its marks.
pub(crate) fn mark_rooms(
    alloc: Global,
    steps: &[Step],
    plans: &[Plan],
) -> Result<Vec<MarkRoom>, AllocError>
    requires { HasFewTargets (map as_step steps.now) }
    ensures { IfOk result (λ rooms. AreMarksMade (map as_step steps.now) plans.now
        (length plans.now) rooms.items) }
{
    let mut rooms = Vec::with_capacity(alloc, plans.len())?;
    for plan in plans {
        rooms.push(marks_for(alloc, steps, plan)?)?;
    }
    Ok(rooms)
}
