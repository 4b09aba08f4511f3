//! The check of a part.
ghost use Rattle.std.specs.Prelude.{◌≡◌, ℕ, ◌<◌, ◌≤◌, ◌^◌, length, vec_capacity, OnOk, IsFalse};
ghost use Rattle.fort_tables.specs.LabelRules.{IsLabelRule, IsTableBy, label_of};
ghost use Rattle.fort_tables.specs.Tables.{listed_table};
ghost use Rattle.fort_target_lists.specs.LayRooms.{HasLayRoom};
ghost use Rattle.fort_certificate_theory.specs.Outcomes.{StepOutcome};
ghost use Rattle.fort_certificate_theory.specs.PartSteps.{IsPartOutcome};
ghost use Rattle.fort_check_steps.specs.Held.{HoldsPart, held_table};
ghost use Rattle.fort_check_steps.specs.HeldStates.{AreRightStates, IsRoomLeft};
ghost use Rattle.fort_check_steps.specs.Room.{HasRoom, HasMergeRoom, most_states};
ghost use Rattle.fort_check_steps.specs.StateLabelsView.{HasSpace, IsAsSpacious};
ghost use Rattle.fort_check_steps.specs.StepAnswers.{outcome_of};

use crate::by_entry::ByEntry;
use crate::failure::Failure;
use crate::finals::put_finals;
use crate::part_rule::PartRule;
use crate::quick::are_quickly_right;
use crate::room::PartRoom;
use crate::state_labels::{StateLabels, put_zeros};
use crate::targets::check_targets;
use fort_labels::LocalRule;
use fort_target_lists::LayRoom;
use fort_terms::Signature;

/// Holds the targets against the entries: by the rule's own means, or else one by one, which finds the first failure.
fn hold_targets<R: PartRule>(
    rule: &R,
    sig: &Signature,
    targets: &[u32],
    presences: &mut Vec<u16>,
    rows: &mut StateLabels,
    out: &mut [u64],
    lay: &mut LayRoom,
) -> Result<(), Failure>
    requires signature { (R.rule rule.now).signature ≡ sig.now }
    requires few { length targets.now < 2 ^ 32 }
    requires words { length out.old ≡ R.word_count rule.now }
    requires space { HasSpace (R.word_count rule.now) (most_states targets.now) rows.old.spaces }
    requires spare { most_states targets.now ≤ vec_capacity presences.old }
    requires lay { HasLayRoom (most_states targets.now) lay.old }
    ensures outcome { IsPartOutcome (R.rule rule.now) targets.now (outcome_of result) }
    ensures lawful { IsLabelRule (R.rule rule.now) }
    ensures right { OnOk result (AreRightStates (R.rule rule.now) targets.now presences.new.items
        rows.new.labels) }
    ensures left { IsRoomLeft (R.word_count rule.now) presences.old presences.new rows.old
        rows.new }
    ensures lay { (n : ℕ) → HasLayRoom n lay.old → HasLayRoom n lay.new }
{
    let width = rule.width();
    presences.clear();
    rows.reset(width);
    if are_quickly_right(rule, sig, targets, presences, rows, out, lay) {
        return Ok(());
    }
    presences.clear();
    rows.reset(width);
    check_targets(rule, sig, targets, presences, rows, out)
}

/// Whether the targets are a table by the local rule, or their first failure. It takes no memory.
pub fn check_part<R: PartRule>(
    rule: &R,
    sig: &Signature,
    targets: &[u32],
    room: &mut PartRoom,
    rows: &mut StateLabels,
    out: &mut Vec<u64>,
    lay: &mut LayRoom,
) -> Result<(), Failure>
    requires signature { (R.rule rule.now).signature ≡ sig.now }
    requires few { length targets.now < 2 ^ 32 }
    requires room { HasRoom targets.now room.old }
    requires space { HasSpace (R.word_count rule.now) (most_states targets.now) rows.old.spaces }
    requires out { R.word_count rule.now ≤ vec_capacity out.old }
    requires lay { HasLayRoom (most_states targets.now) lay.old }
    ensures outcome { IsPartOutcome (R.rule rule.now) targets.now (outcome_of result) }
    ensures only { (o : StepOutcome) → IsPartOutcome (R.rule rule.now) targets.now o
        → o ≡ outcome_of result }
    ensures held { OnOk result (HoldsPart (R.rule rule.now) (R.accepting rule.now) targets.now
        room.new) }
    ensures table { OnOk result (IsTableBy (R.rule rule.now).signature (R.rule rule.now).columns
        (label_of (R.rule rule.now)) (R.accepting rule.now) (listed_table (held_table
        (R.rule rule.now) targets.now room.new))) }
    ensures not_merged { IsFalse room.new.is_merged }
    ensures room { HasRoom targets.now room.new }
    ensures merge_room { HasMergeRoom targets.now room.old → HasMergeRoom targets.now room.new }
    ensures space { IsAsSpacious rows.old.spaces rows.new.spaces }
    ensures out { vec_capacity out.old ≤ vec_capacity out.new }
    ensures lay { (n : ℕ) → HasLayRoom n lay.old → HasLayRoom n lay.new }
{
    let width = rule.width();
    put_zeros(out, width);
    room.finals.clear();
    room.is_merged = false;
    match hold_targets(
        rule,
        sig,
        targets,
        &mut room.presences,
        rows,
        out.as_mut_slice(),
        lay,
    ) {
        Ok(()) => {
            put_finals(rule, rows, out.as_mut_slice(), &mut room.finals);
            Ok(())
        }
        Err(failure) => Err(failure),
    }
}

/// The same of a local rule without means of its own to hold targets: they are held entry by entry alone.
pub fn check_part_by_entry<R: LocalRule>(
    rule: &R,
    sig: &Signature,
    targets: &[u32],
    room: &mut PartRoom,
    rows: &mut StateLabels,
    out: &mut Vec<u64>,
    lay: &mut LayRoom,
) -> Result<(), Failure>
    requires signature { (R.rule rule.now).signature ≡ sig.now }
    requires few { length targets.now < 2 ^ 32 }
    requires room { HasRoom targets.now room.old }
    requires space { HasSpace (R.word_count rule.now) (most_states targets.now) rows.old.spaces }
    requires out { R.word_count rule.now ≤ vec_capacity out.old }
    requires lay { HasLayRoom (most_states targets.now) lay.old }
    ensures outcome { IsPartOutcome (R.rule rule.now) targets.now (outcome_of result) }
    ensures only { (o : StepOutcome) → IsPartOutcome (R.rule rule.now) targets.now o
        → o ≡ outcome_of result }
    ensures held { OnOk result (HoldsPart (R.rule rule.now) (R.accepting rule.now) targets.now
        room.new) }
    ensures table { OnOk result (IsTableBy (R.rule rule.now).signature (R.rule rule.now).columns
        (label_of (R.rule rule.now)) (R.accepting rule.now) (listed_table (held_table
        (R.rule rule.now) targets.now room.new))) }
    ensures not_merged { IsFalse room.new.is_merged }
    ensures room { HasRoom targets.now room.new }
    ensures merge_room { HasMergeRoom targets.now room.old → HasMergeRoom targets.now room.new }
    ensures space { IsAsSpacious rows.old.spaces rows.new.spaces }
    ensures out { vec_capacity out.old ≤ vec_capacity out.new }
    ensures lay { (n : ℕ) → HasLayRoom n lay.old → HasLayRoom n lay.new }
{
    check_part(&ByEntry(rule), sig, targets, room, rows, out, lay)
}
