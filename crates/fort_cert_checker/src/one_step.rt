//! The check of one step, which is the one due at its place.
ghost use Rattle.std.specs.Prelude.{◌≡◌, ℕ, ◌+◌, List, map, slice_index_or, OnOk, IfErr};
ghost use Rattle.fort_theory.specs.Patterns.{PatternSystem};
ghost use Rattle.fort_theory.specs.Cores as theory;
ghost use Rattle.fort_alike.specs.ListedClosures as listed_closures;
ghost use Rattle.fort_certificate_theory.specs.Certificates as certificates;
ghost use Rattle.fort_findings.specs.FindingView.{as_pair};
ghost use Rattle.fort_steps.specs.StepView.{as_step};
ghost use Rattle.fort_certificate_theory.specs.Dues as definitions;
ghost use Rattle.fort_certificate_theory.specs.Made.{MadeSoFar};
ghost use Rattle.fort_certificate_theory.specs.Checked.{IsClosureJudged, IsFailing};
ghost use Rattle.fort_check_steps.specs.StepAnswers.{outcome_of, as_reason};
ghost use Rattle.fort_check_steps.specs.Room.{IsAsRoomy};
ghost use Rattle.fort_cert_checker.specs.Abouts.{IsOnlyAbout};
ghost use Rattle.fort_cert_checker.specs.Pasts.{IsMarkRoomFor};
ghost use Rattle.fort_cert_checker.specs.Makings.{IsClosureFor, IsRoomFor};
ghost use Rattle.fort_cert_checker.specs.Fronts.{IsReady, IsFineStep, part_in};
ghost use Rattle.fort_cert_checker.specs.GivenSteps.{IsPartDue, WherePartDue, IsLoopOf, IsDueAt, WhereDue};

use crate::about::targets_of;
use crate::making::ClosurePlan;
use crate::part_tables::check_table;
use crate::past::Past;
use crate::plan::Plan;
use crate::value::{check_counts, check_value};
use fort_check_merges::check_merge;
use fort_check_steps::{Failure, LabelRoom, MarkRoom, PartRoom, check_closure};
use fort_findings::ClosureEntry;
use fort_steps::Step;
use fort_terms::System;

/// What a check reads.
#[derive(Clone, Copy)]
pub(crate) struct CheckSources<'a> {
    pub system: &'a System,
    pub steps: &'a [Step],
    pub plans: &'a [Plan],
}

fn check_pairs(plan: &mut Option<ClosurePlan>, entries: &[ClosureEntry]) -> Result<(), Failure>
    requires due { (system : PatternSystem) × (which : listed_closures.Which) × (index : ℕ)
        × IsClosureFor system (definitions.OfClosure which index) plan.old }
    ensures judged { (system : PatternSystem) (which : listed_closures.Which) (index : ℕ)
        → IsClosureFor system (definitions.OfClosure which index) plan.old
        → IsClosureJudged system which index (map as_pair entries.now) (outcome_of result) }
    ensures kept { (system : PatternSystem) (d : definitions.DueStep)
        → IsClosureFor system d plan.old → IsClosureFor system d plan.new }
{
    match plan {
        Some(plan) => check_closure(&plan.rules, entries, plan.listed.as_mut_slice()),
        None => unreachable!(),
    }
}

/// A step that names a part.
fn check_own(
    given: &CheckSources<'_>,
    plan: &Plan,
    step: &Step,
    front: &[PartRoom],
    room: &mut PartRoom,
    scratch: &mut LabelRoom,
    marks: &mut MarkRoom,
) -> Result<(), Failure>
    requires due { (parts : List theory.Core) × (f : theory.Core) × (made : MadeSoFar)
        × IsPartDue given.now parts front.now made f plan.now (as_step step.now) room.old
        scratch.old marks.old }
    ensures fine { OnOk result (WherePartDue given.now front.now plan.now (as_step step.now)
        room.old scratch.old marks.old (λ parts f made. IsFineStep given.now.system.now parts
        (map as_step given.now.steps.now) made (as_step step.now) room.new)) }
    ensures failing { IfErr result (λ e. WherePartDue given.now front.now plan.now
        (as_step step.now) room.old scratch.old marks.old (λ parts f made.
        IsFailing given.now.system.now parts made (as_step step.now) e.place
        (as_reason e.reason))) }
    ensures room { (ss : List certificates.Step) → IsOnlyAbout ss (as_step step.now)
        → IsRoomFor ss (part_in (as_step step.now)) room.old
        → IsRoomFor ss (part_in (as_step step.now)) room.new }
    ensures scratch { IsAsRoomy scratch.old scratch.new }
    ensures marks { WherePartDue given.now front.now plan.now (as_step step.now) room.old
        scratch.old marks.old (λ parts f made. IsMarkRoomFor (map as_step given.now.steps.now)
        plan.now.work marks.new) }
{
    let past = Past {
        signature: given.system.signature(),
        steps: given.steps,
        plans: given.plans,
        rooms: front,
    };
    match step {
        Step::Part(_, targets) => check_table(
            given.system,
            plan,
            &past,
            targets,
            room,
            scratch,
            marks,
        ),
        Step::Merge(part, classes) => check_merge(
            past.signature,
            plan.columns,
            targets_of(given.steps, *part),
            classes,
            room,
            scratch,
        ),
        Step::Counts(_, counts) => check_counts(plan, &past, counts, marks),
        Step::Value(_, value) => check_value(plan, &past, *value, marks),
        Step::Closure(_, _, _) => unreachable!(),
    }
}

/// Checks the step at a place, which is the one that is due there.
pub(crate) fn check_step(
    given: &CheckSources<'_>,
    place: usize,
    closures: &mut [Option<ClosurePlan>],
    rooms: &mut [PartRoom],
    scratch: &mut LabelRoom,
    marks: &mut [MarkRoom],
) -> Result<(), Failure>
    requires due { (parts : List theory.Core) × (root : theory.Core)
        × (ss : List certificates.Step) × (made : MadeSoFar) × IsDueAt given.now closures.old rooms.old
        scratch.old marks.old place parts root ss made }
    ensures fine { OnOk result (WhereDue given.now closures.old rooms.old scratch.old marks.old
        place (λ parts root ss made. (next : MadeSoFar) × IsLoopOf given.now root parts ss closures.new
        rooms.new scratch.new marks.new (place + 1) next)) }
    ensures failing { IfErr result (λ e. WhereDue given.now closures.old rooms.old scratch.old
        marks.old place (λ parts root ss made. (s : certificates.Step)
        → IsFailing given.now.system.now parts made (slice_index_or ss place s) e.place
        (as_reason e.reason))) }
    ensures ready { WhereDue given.now closures.old rooms.old scratch.old marks.old place
        (λ parts root ss made. IsReady given.now.system.now root parts ss given.now.plans.now
        closures.new rooms.new scratch.new marks.new) }
{
    let step = &given.steps[place];
    match step {
        Step::Closure(_, _, entries) => check_pairs(&mut closures[place], entries),
        Step::Part(k, _) | Step::Merge(k, _) | Step::Counts(k, _) | Step::Value(k, _) => {
            let part = *k as usize;
            let plan = &given.plans[part];
            let (front, back) = rooms.split_at_mut(part);
            check_own(
                given,
                plan,
                step,
                front,
                &mut back[0],
                scratch,
                &mut marks[part],
            )
        }
    }
}
