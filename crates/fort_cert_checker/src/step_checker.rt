//! The check of a certificate's steps, which makes the table of the formula where it has columns.
ghost use Rattle.std.specs.Prelude.{◌≡◌, ℕ, ◌+◌, ◌<◌, List, map, length, IfOk, OnOk, IfErr};
ghost use Rattle.fort_theory.specs.Patterns.{PatternSystem};
ghost use Rattle.fort_theory.specs.Cores as theory;
ghost use Rattle.fort_certificate_theory.specs.Certificates as certificates;
ghost use Rattle.fort_formulas.specs.CoreView.{as_core};
ghost use Rattle.fort_parts.specs.PartColumns.{columns_of};
ghost use Rattle.fort_parts.specs.DecidedCores.{IsDecided};
ghost use Rattle.fort_certificate_theory.specs.Made.{MadeSoFar};
ghost use Rattle.fort_steps.specs.StepView.{as_step};
ghost use Rattle.fort_check_steps.specs.Turned.{turned_table};
ghost use Rattle.fort_cert_checker.specs.OutcomeView.{as_reason};
ghost use Rattle.fort_cert_checker.specs.OperandLists.{HasTableRoom};
ghost use Rattle.fort_cert_checker.specs.StepCheckers.{IsStepCheckerOf, IsStepCheckAt, IsStepCheckDone, HasFailure, IsFailureAt, IsWholeTable, FitsWhole};
ghost use Rattle.fort_target_lists.specs.declared.states.LayRoom.{LayRoom};
ghost use Rattle.fort_target_lists.specs.declared.target_list.TargetList.{TargetList};

use crate::about::{is_about, merged_parts};
use crate::making::{
    ClosurePlan, closure_plans, list_of, mark_rooms, plans_of, rooms_of, scratch_for,
};
use crate::numbers::has_all_numbers;
use crate::one_step::{CheckSources, check_step};
use crate::past::Past;
use crate::plan::{Plan, Source, source_of};
use crate::rejected::{Rejected, rejected_at};
use fort_check_steps::{Failure, LabelRoom, MarkRoom, PartRoom, PartTable, Reason, failed};
use fort_dues::{DueStep, steps_due};
use fort_formulas::Core;
use fort_outline::Outline;
use fort_steps::Step;
use fort_target_lists::{LayRoom, TargetList};
use fort_terms::System;
use std::alloc::{AllocError, Global};

/// Checks the steps of a certificate, in room that is taken before.
#[derive(Drop)]
pub struct StepChecker<'a> {
    system: &'a System,
    /// The number of the form before the first step.
    first: u32,
    steps: &'a [Step],
    /// Where the answer of the formula is.
    root: Source,
    dues: Vec<DueStep>,
    /// For each step that is due.
    closures: Vec<Option<ClosurePlan>>,
    plans: Vec<Plan>,
    rooms: Vec<PartRoom>,
    /// For the labels of each part in its turn, and its operands' lists.
    scratch: LabelRoom,
    marks: Vec<MarkRoom>,
}

/// Where the targets of the formula's table are laid.
#[derive(Drop)]
pub struct WholeRoom {
    pub list: TargetList,
    pub lay: LayRoom,
}

impl<'a> StepChecker<'a> {
    /// Takes all the memory that the check needs. More parts, steps, or targets or classes of a part than there are numbers of 32 bits
    /// are want of memory.
    pub fn new(
        alloc: Global,
        system: &'a System,
        core: &Core,
        first: u32,
        steps: &'a [Step],
    ) -> Result<StepChecker<'a>, AllocError>
        requires { IsDecided system.now (as_core core.now) }
        ensures { IfOk result (IsStepCheckerOf system.now (as_core core.now) first
            (map as_step steps.now)) }
    {
        let outline = Outline::new(alloc, core)?;
        if !has_all_numbers(outline.roots.len(), first, steps) {
            return Err(AllocError);
        }
        let merges = merged_parts(alloc, steps, outline.roots.len())?;
        let dues = steps_due(alloc, system.number(), &outline, &merges)?;
        let closures = closure_plans(alloc, system, &dues)?;
        let plans = plans_of(alloc, system, steps, &outline)?;
        let rooms = rooms_of(alloc, steps, plans.len())?;
        let scratch = scratch_for(alloc, steps, &plans)?;
        let marks = mark_rooms(alloc, steps, &plans)?;
        Ok(StepChecker {
            system,
            first,
            steps,
            root: source_of(&outline, outline.whole),
            dues,
            closures,
            plans,
            rooms,
            scratch,
            marks,
        })
    }

    /// The step that is due at a place.
    fn check_due(&mut self, place: usize) -> Result<(), Failure>
        requires due { (system : PatternSystem) × (f : theory.Core) × (first : ℕ)
            × (ss : List certificates.Step) × (made : MadeSoFar)
            × IsStepCheckAt system f first ss self.old place made
            × (place < length self.old.dues.items) }
        ensures fine { OnOk result ((system : PatternSystem) (f : theory.Core) (first : ℕ)
            (ss : List certificates.Step) (made : MadeSoFar)
            → IsStepCheckAt system f first ss self.old place made
            → (next : MadeSoFar) × IsStepCheckAt system f first ss self.new (place + 1) next) }
        ensures failing { IfErr result (λ e. (system : PatternSystem) (f : theory.Core) (first : ℕ)
            (ss : List certificates.Step) (made : MadeSoFar)
            → IsStepCheckAt system f first ss self.old place made
            → IsFailureAt system f ss place e.place (as_reason e.reason)) }
        ensures same { (system : PatternSystem) (f : theory.Core) (first : ℕ)
            (ss : List certificates.Step) (made : MadeSoFar)
            → IsStepCheckAt system f first ss self.old place made
            → IsStepCheckerOf system f first ss self.new }
        ensures first { self.new.first ≡ self.old.first }
        ensures steps { self.new.steps ≡ self.old.steps }
        ensures root { self.new.root ≡ self.old.root }
        ensures dues { self.new.dues ≡ self.old.dues }
    {
        let Some(step) = self.steps.get(place) else {
            return failed(0, Reason::Due);
        };
        if !is_about(step, self.dues[place]) {
            return failed(0, Reason::Due);
        }
        let given = CheckSources {
            system: self.system,
            steps: self.steps,
            plans: &self.plans,
        };
        check_step(
            &given,
            place,
            &mut self.closures,
            &mut self.rooms,
            &mut self.scratch,
            &mut self.marks,
        )
    }

    /// Checks the steps: all are fine, or the first form that fails. It takes no memory, and answers the same when it is called again.
    pub fn check(&mut self) -> Result<(), Rejected>
        requires { (system : PatternSystem) × (f : theory.Core) × (first : ℕ)
            × (ss : List certificates.Step) × IsStepCheckerOf system f first ss self.old }
        ensures fine { OnOk result ((system : PatternSystem) (f : theory.Core) (first : ℕ)
            (ss : List certificates.Step) → IsStepCheckerOf system f first ss self.old
            → (made : MadeSoFar) × IsStepCheckDone system f first ss self.new made) }
        ensures failing { IfErr result (λ r. (system : PatternSystem) (f : theory.Core) (first : ℕ)
            (ss : List certificates.Step) → IsStepCheckerOf system f first ss self.old
            → HasFailure system f first ss r) }
        ensures again { (system : PatternSystem) (f : theory.Core) (first : ℕ)
            (ss : List certificates.Step) → IsStepCheckerOf system f first ss self.old
            → IsStepCheckerOf system f first ss self.new }
        ensures room { (list : TargetList) (lay : LayRoom) → FitsWhole self.old list lay
            → FitsWhole self.new list lay }
    {
        'dues: for place in 0..self.dues.len() {
            if let Err(failure) = self.check_due(place) {
                return Err(rejected_at(self.first, place, failure));
            }
        }
        let due = self.dues.len();
        if due < self.steps.len() {
            let failure = Failure {
                place: 0,
                reason: Reason::Due,
            };
            return Err(rejected_at(self.first, due, failure));
        }
        Ok(())
    }

    /// The table of the formula, which has columns, behind a check that found no failure.
    pub fn whole(&self) -> PartTable<'_>
        requires { (system : PatternSystem) × (f : theory.Core) × (first : ℕ)
            × (ss : List certificates.Step) × (made : MadeSoFar)
            × IsStepCheckDone system f first ss self.now made × (0 < length (columns_of f)) }
        ensures table { (system : PatternSystem) (f : theory.Core) (first : ℕ)
            (ss : List certificates.Step) (made : MadeSoFar)
            → (done : IsStepCheckDone system f first ss self.now made) → 0 < length (columns_of f)
            → IsWholeTable system f done.checker.parts made (turned_table result) }
        ensures room { (list : TargetList) (lay : LayRoom) → FitsWhole self.now list lay
            → HasTableRoom result list lay }
    {
        let past = Past {
            signature: self.system.signature(),
            steps: self.steps,
            plans: &self.plans,
            rooms: &self.rooms,
        };
        past.table(self.root)
    }

    /// Room for the list of the formula's table.
    pub fn whole_room(&self, alloc: Global) -> Result<WholeRoom, AllocError>
        requires { (system : PatternSystem) × (f : theory.Core) × (first : ℕ)
            × (ss : List certificates.Step) × IsStepCheckerOf system f first ss self.now }
        ensures { IfOk result (λ room. FitsWhole self.now room.list room.lay) }
    {
        let needs = list_of(self.steps, self.root);
        Ok(WholeRoom {
            list: TargetList::with_room(alloc, needs.states, needs.targets)?,
            lay: LayRoom::new(alloc, needs.states)?,
        })
    }
}
