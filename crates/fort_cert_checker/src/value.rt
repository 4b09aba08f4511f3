//! The checks of a part's value and of its marks.
ghost use Rattle.std.specs.Prelude.{◌≡◌, ℕ, ◌<◌, List, map, length, OnOk, IfErr};
ghost use Rattle.fort_theory.specs.Patterns.{PatternSystem};
ghost use Rattle.fort_theory.specs.Cores as theory;
ghost use Rattle.fort_tables.specs.Tables as tables;
ghost use Rattle.fort_tables.specs.Counts.{count_at, is_infinite};
ghost use Rattle.fort_tables.specs.ManyLabels.{many_value as many_value_lem};
ghost use Rattle.fort_tables.specs.Projections.{ArePure};
ghost use Rattle.fort_findings.specs.FindingView.{as_count};
ghost use Rattle.fort_certificate_theory.specs.Made.{MadeSoFar};
ghost use Rattle.fort_certificate_theory.specs.PartRules.{IsValueOf};
ghost use Rattle.fort_certificate_theory.specs.Checked.{IsCountJudged};
ghost use Rattle.fort_check_steps.specs.StepAnswers.{outcome_of};
ghost use Rattle.fort_check_steps.specs.Marks.{HasMarkRoom};
ghost use Rattle.fort_cert_checker.specs.Pasts.{IsTableAt, IsMarkRoomFor, steps_of};
ghost use Rattle.fort_cert_checker.specs.Values.{IsValueDue, AreCountsDue, IsOtherValue};

use crate::past::{Past, accepts_some};
use crate::plan::{Plan, Source, Work};
use fort_check_steps::{Failure, MarkRoom, Reason, check_marks, failed, put_pure};
use fort_findings::Count;
use fort_infinity::local::many_value;

/// Whether infinitely many values of its only column are accepted.
fn accepts_many(
    past: &Past<'_>,
    source: Source,
    column: usize,
    counts: &[Count],
    marks: &mut MarkRoom,
) -> bool
    requires body { (table : tables.Table) × IsTableAt past.now source table
        × (column < table.columns) × HasMarkRoom (length table.presences) 0 marks.old
        × ((states : List ℕ) → ArePure table column states
        → length counts.now ≡ length states) }
    ensures value { (table : tables.Table) (states : List ℕ) → IsTableAt past.now source table
        → ArePure table column states → result ≡ many_value_lem table column
        (λ q. is_infinite (count_at states (map as_count counts.now) q)) }
    ensures marks { (states count : ℕ) → HasMarkRoom states count marks.old
        → HasMarkRoom states count marks.new }
{
    let body = past.table(source);
    marks.states.clear();
    put_pure(&body, column, &mut marks.states);
    many_value(&body, column, &marks.states, counts)
}

/// The value of a part without columns.
fn own_value(plan: &Plan, past: &Past<'_>, marks: &mut MarkRoom) -> bool
    requires due { (system : PatternSystem) × (parts : List theory.Core) × (k : ℕ)
        × (made : MadeSoFar) × (f : theory.Core) × IsValueDue system parts past.now k made f plan.now
        marks.old }
    ensures value { (system : PatternSystem) (parts : List theory.Core) (k : ℕ) (made : MadeSoFar)
        (f : theory.Core) → IsValueDue system parts past.now k made f plan.now marks.old
        → IsValueOf parts made k f result }
    ensures marks { (states count : ℕ) → HasMarkRoom states count marks.old
        → HasMarkRoom states count marks.new }
{
    match &plan.work {
        Work::Truth => true,
        Work::Negation(source) => !past.truth(*source),
        Work::Product(op, first, second) => {
            let one = past.truth(first.source);
            let other = past.truth(second.source);
            op.connect(one, other)
        }
        Work::Projection(source, _) => {
            let body = past.table(*source);
            accepts_some(&body)
        }
        Work::Many(source, column, counts) => {
            accepts_many(past, *source, *column, counts, marks)
        }
        Work::Atom(_) => unreachable!(),
    }
}

/// Holds a value against that of the part.
pub(crate) fn check_value(
    plan: &Plan,
    past: &Past<'_>,
    value: bool,
    marks: &mut MarkRoom,
) -> Result<(), Failure>
    requires due { (system : PatternSystem) × (parts : List theory.Core) × (k : ℕ)
        × (made : MadeSoFar) × (f : theory.Core) × IsValueDue system parts past.now k made f plan.now
        marks.old }
    ensures fine { OnOk result ((system : PatternSystem) (parts : List theory.Core) (k : ℕ)
        (made : MadeSoFar) (f : theory.Core) → IsValueDue system parts past.now k made f plan.now
        marks.old → IsValueOf parts made k f value) }
    ensures failing { IfErr result (λ e. (system : PatternSystem) (parts : List theory.Core)
        (k : ℕ) (made : MadeSoFar) (f : theory.Core) → IsValueDue system parts past.now k made f
        plan.now marks.old → IsOtherValue parts made k f value e) }
    ensures marks { (states count : ℕ) → HasMarkRoom states count marks.old
        → HasMarkRoom states count marks.new }
{
    let own = own_value(plan, past, marks);
    if value == own {
        Ok(())
    } else {
        failed(0, Reason::Value)
    }
}

/// Holds the marks of a part's operand.
pub(crate) fn check_counts(
    plan: &Plan,
    past: &Past<'_>,
    counts: &[Count],
    marks: &mut MarkRoom,
) -> Result<(), Failure>
    requires due { (system : PatternSystem) × (parts : List theory.Core) × (k : ℕ)
        × (made : MadeSoFar) × (f : theory.Core) × AreCountsDue system parts past.now k made f plan.now
        (map as_count counts.now) marks.old }
    ensures judged { (system : PatternSystem) (parts : List theory.Core) (k : ℕ) (made : MadeSoFar)
        (f : theory.Core) → AreCountsDue system parts past.now k made f plan.now
        (map as_count counts.now) marks.old
        → IsCountJudged parts made k (map as_count counts.now) (outcome_of result) }
    ensures marks { (system : PatternSystem) (parts : List theory.Core) (k : ℕ) (made : MadeSoFar)
        (f : theory.Core) → AreCountsDue system parts past.now k made f plan.now
        (map as_count counts.now) marks.old
        → IsMarkRoomFor (steps_of past.now) plan.now.work marks.new }
{
    match &plan.work {
        Work::Many(source, column, _) => {
            let body = past.table(*source);
            check_marks(&body, *column, counts, marks)
        }
        _ => unreachable!(),
    }
}
