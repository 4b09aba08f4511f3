//! The checks of the tables of parts, by what the parts are.
ghost use Rattle.std.specs.Prelude.{◌≡◌, ℕ, ◌+◌, ◌*◌, ◌<◌, ◌^◌, List, map, length};
ghost use Rattle.fort_theory.specs.Cores as theory;
ghost use Rattle.fort_tables.specs.BitRows.{words_for};
ghost use Rattle.fort_tables.specs.Tables as tables;
ghost use Rattle.fort_tables.specs.Counts.{KeepRules, count_at, is_infinite};
ghost use Rattle.fort_tables.specs.Projections.{ArePure};
ghost use Rattle.fort_parts.specs.PartAnswers as answers;
ghost use Rattle.fort_connectives.specs.ConnectiveView.{connective_of};
ghost use Rattle.fort_findings.specs.FindingView.{as_count};
ghost use Rattle.fort_certificate_theory.specs.PartRules.{project_local, many_local};
ghost use Rattle.fort_context_closure.specs.AtomLabelsView.{word_count};
ghost use Rattle.fort_check_steps.specs.Room.{HasRoom, HasMergeRoom, HasLabelRoom, IsAsRoomy};
ghost use Rattle.fort_check_steps.specs.Marks.{HasMarkRoom};
ghost use Rattle.fort_check_steps.specs.Turned.{turned_table};
ghost use Rattle.fort_certificate_theory.specs.Made.{MadeSoFar};
ghost use Rattle.fort_cert_checker.specs.AtomPlans.{atom_local};
ghost use Rattle.fort_cert_checker.specs.Joins.{AreJoined, joined_local};
ghost use Rattle.fort_cert_checker.specs.OperandLists.{FitsList, HasTableRoom};
ghost use Rattle.fort_cert_checker.specs.Pasts.{steps_of, IsAnswerAt, IsTableAt, IsPartStep, IsTableDue, IsTableStep};

use crate::past::{Past, factor, laid_list, lay};
use crate::plan::{OperandPlan, Plan, Source, Work};
use fort_check_steps::{
    Failure, LabelRoom, MarkRoom, PartRoom, PartTable, Projected, check_part, check_part_by_entry,
    put_pure,
};
use fort_connectives::Op;
use fort_context_closure::{AtomLabels, SignedAtom};
use fort_findings::Count;
use fort_infinity::Many;
use fort_products::Both;
use fort_terms::{Signature, System};

/// Holds the targets of an atom.
fn check_atom(
    system: &System,
    labels: &AtomLabels,
    targets: &[u32],
    room: &mut PartRoom,
    scratch: &mut LabelRoom,
) -> Result<(), Failure>
    requires few { length targets.now < 2 ^ 32 }
    requires room { HasRoom targets.now room.old }
    requires scratch { HasLabelRoom (word_count labels.now) targets.now scratch.old }
    ensures step { IsPartStep (atom_local system.now labels.now) targets.now room.new result }
    ensures room { HasRoom targets.now room.new }
    ensures merge_room { HasMergeRoom targets.now room.old → HasMergeRoom targets.now room.new }
    ensures scratch { IsAsRoomy scratch.old scratch.new }
{
    let signature = system.signature();
    let atom = SignedAtom { signature, labels };
    check_part_by_entry(
        &atom,
        signature,
        targets,
        room,
        &mut scratch.rows,
        &mut scratch.out,
        &mut scratch.lists.lay,
    )
}

/// Holds the targets of a product over so many columns.
fn check_product(
    op: Op,
    columns: usize,
    first: &OperandPlan,
    second: &OperandPlan,
    past: &Past<'_>,
    targets: &[u32],
    room: &mut PartRoom,
    scratch: &mut LabelRoom,
) -> Result<(), Failure>
    requires answers { (a b : answers.Answer) × IsAnswerAt past.now first.now.source a
        × IsAnswerAt past.now second.now.source b × AreJoined past.now.signature.now columns a
        first.now.places.items b second.now.places.items }
    requires few { length targets.now < 2 ^ 32 }
    requires room { HasRoom targets.now room.old }
    requires scratch { HasLabelRoom 3 targets.now scratch.old }
    requires first { FitsList (steps_of past.now) first.now.source scratch.old.lists.first
        scratch.old.lists.lay }
    requires second { FitsList (steps_of past.now) second.now.source scratch.old.lists.second
        scratch.old.lists.lay }
    ensures step { (a b : answers.Answer) → IsAnswerAt past.now first.now.source a
        → IsAnswerAt past.now second.now.source b → IsPartStep (joined_local (connective_of op)
        columns a first.now.places.items b second.now.places.items) targets.now room.new result }
    ensures room { HasRoom targets.now room.new }
    ensures merge_room { HasMergeRoom targets.now room.old → HasMergeRoom targets.now room.new }
    ensures scratch { IsAsRoomy scratch.old scratch.new }
{
    let one = past.answer(first.source);
    let other = past.answer(second.source);
    lay(&one, &mut scratch.lists.first, &mut scratch.lists.lay);
    lay(&other, &mut scratch.lists.second, &mut scratch.lists.lay);
    let first_list = laid_list(&one, &scratch.lists.first);
    let second_list = laid_list(&other, &scratch.lists.second);
    let left = factor(&one, &first.places);
    let right = factor(&other, &second.places);
    let plain = Both::new(op, left, right, columns);
    let rule = plain.listed(first_list, second_list);
    check_part(
        &rule,
        past.signature,
        targets,
        room,
        &mut scratch.rows,
        &mut scratch.out,
        &mut scratch.lists.lay,
    )
}

/// Holds the targets of the projection of a body whose pure states in the column are these.
fn hold_projection(
    body: &PartTable<'_>,
    column: usize,
    states: &[u32],
    signature: &Signature,
    targets: &[u32],
    room: &mut PartRoom,
    scratch: &mut LabelRoom,
) -> Result<(), Failure>
    requires column { column < (turned_table body.now).columns }
    requires another { 1 < (turned_table body.now).columns }
    requires pure { ArePure (turned_table body.now) column states.now }
    requires signature { (turned_table body.now).signature ≡ signature.now }
    requires list { HasTableRoom body.now scratch.old.lists.first scratch.old.lists.lay }
    requires few { length targets.now < 2 ^ 32 }
    requires room { HasRoom targets.now room.old }
    requires scratch { HasLabelRoom (words_for (length (turned_table body.now).presences) + 2)
        targets.now scratch.old }
    ensures step { IsPartStep (project_local (turned_table body.now) column) targets.now room.new
        result }
    ensures room { HasRoom targets.now room.new }
    ensures merge_room { HasMergeRoom targets.now room.old → HasMergeRoom targets.now room.new }
    ensures scratch { IsAsRoomy scratch.old scratch.new }
{
    body.lay(&mut scratch.lists.first, &mut scratch.lists.lay);
    let rule = Projected::new(body, column, states, &scratch.lists.first);
    check_part(
        &rule,
        signature,
        targets,
        room,
        &mut scratch.rows,
        &mut scratch.out,
        &mut scratch.lists.lay,
    )
}

/// Holds the targets of a projection.
fn check_projection(
    past: &Past<'_>,
    source: Source,
    column: usize,
    targets: &[u32],
    room: &mut PartRoom,
    scratch: &mut LabelRoom,
    marks: &mut MarkRoom,
) -> Result<(), Failure>
    requires body { (table : tables.Table) × IsTableAt past.now source table
        × (table.signature ≡ past.now.signature.now) × (column < table.columns)
        × (1 < table.columns) × HasLabelRoom (words_for (length table.presences) + 2)
        targets.now scratch.old × HasMarkRoom (length table.presences) 0 marks.old }
    requires list { FitsList (steps_of past.now) source scratch.old.lists.first
        scratch.old.lists.lay }
    requires few { length targets.now < 2 ^ 32 }
    requires room { HasRoom targets.now room.old }
    ensures step { (table : tables.Table) → IsTableAt past.now source table
        → IsPartStep (project_local table column) targets.now room.new result }
    ensures room { HasRoom targets.now room.new }
    ensures merge_room { HasMergeRoom targets.now room.old → HasMergeRoom targets.now room.new }
    ensures scratch { IsAsRoomy scratch.old scratch.new }
    ensures marks { (states count : ℕ) → HasMarkRoom states count marks.old
        → HasMarkRoom states count marks.new }
{
    let body = past.table(source);
    marks.states.clear();
    put_pure(&body, column, &mut marks.states);
    hold_projection(
        &body,
        column,
        &marks.states,
        past.signature,
        targets,
        room,
        scratch,
    )
}

/// Holds the targets of "infinitely many".
fn check_many(
    past: &Past<'_>,
    source: Source,
    column: usize,
    counts: &[Count],
    targets: &[u32],
    room: &mut PartRoom,
    scratch: &mut LabelRoom,
    marks: &mut MarkRoom,
) -> Result<(), Failure>
    requires body { (table : tables.Table) × IsTableAt past.now source table
        × (table.signature ≡ past.now.signature.now) × (column < table.columns)
        × (1 < table.columns) × HasLabelRoom (words_for (2 * length table.presences) + 2)
        targets.now scratch.old × HasMarkRoom (length table.presences) 0 marks.old
        × ((states : List ℕ) → ArePure table column states
        → (length counts.now ≡ length states)
        × KeepRules table column (count_at states (map as_count counts.now))) }
    requires list { FitsList (steps_of past.now) source scratch.old.lists.first
        scratch.old.lists.lay }
    requires few { length targets.now < 2 ^ 32 }
    requires room { HasRoom targets.now room.old }
    ensures step { (table : tables.Table) (states : List ℕ) → IsTableAt past.now source table
        → ArePure table column states → IsPartStep (many_local table column
        (λ q. is_infinite (count_at states (map as_count counts.now) q))) targets.now room.new
        result }
    ensures room { HasRoom targets.now room.new }
    ensures merge_room { HasMergeRoom targets.now room.old → HasMergeRoom targets.now room.new }
    ensures scratch { IsAsRoomy scratch.old scratch.new }
    ensures marks { (states count : ℕ) → HasMarkRoom states count marks.old
        → HasMarkRoom states count marks.new }
{
    let body = past.table(source);
    marks.states.clear();
    put_pure(&body, column, &mut marks.states);
    body.lay(&mut scratch.lists.first, &mut scratch.lists.lay);
    let listed = body.listed(&scratch.lists.first);
    let rule = Many::new(&listed, column, &marks.states, counts);
    check_part_by_entry(
        &rule,
        past.signature,
        targets,
        room,
        &mut scratch.rows,
        &mut scratch.out,
        &mut scratch.lists.lay,
    )
}

/// Holds the targets of a part against the labels that it is to have.
pub(crate) fn check_table(
    system: &System,
    plan: &Plan,
    past: &Past<'_>,
    targets: &[u32],
    room: &mut PartRoom,
    scratch: &mut LabelRoom,
    marks: &mut MarkRoom,
) -> Result<(), Failure>
    requires due { (parts : List theory.Core) × (k : ℕ) × (made : MadeSoFar) × (f : theory.Core)
        × IsTableDue system.now parts past.now k made f plan.now targets.now room.old scratch.old
        marks.old }
    ensures step { (parts : List theory.Core) (k : ℕ) (made : MadeSoFar) (f : theory.Core)
        → IsTableDue system.now parts past.now k made f plan.now targets.now room.old scratch.old
        marks.old → IsTableStep system.now parts k made f targets.now room.new result }
    ensures room { HasRoom targets.now room.new }
    ensures merge_room { HasMergeRoom targets.now room.old → HasMergeRoom targets.now room.new }
    ensures scratch { IsAsRoomy scratch.old scratch.new }
    ensures marks { (states count : ℕ) → HasMarkRoom states count marks.old
        → HasMarkRoom states count marks.new }
{
    match &plan.work {
        Work::Atom(labels) => check_atom(system, labels, targets, room, scratch),
        Work::Product(op, first, second) => check_product(
            *op,
            plan.columns,
            first,
            second,
            past,
            targets,
            room,
            scratch,
        ),
        Work::Projection(source, column) => {
            check_projection(past, *source, *column, targets, room, scratch, marks)
        }
        Work::Many(source, column, counts) => {
            check_many(
                past, *source, *column, counts, targets, room, scratch, marks,
            )
        }
        Work::Truth | Work::Negation(_) => unreachable!(),
    }
}
