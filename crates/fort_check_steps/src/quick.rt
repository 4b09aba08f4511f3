//! Targets held by the rule's own means, where only the labels of new states are found entry by entry.
ghost use Rattle.std.specs.Prelude.{◌≡◌, ℕ, ◌<◌, ◌≤◌, ◌^◌, List, map, length, vec_len, vec_capacity, IsTrue};
ghost use Rattle.fort_tables.specs.Entries.{Entry};
ghost use Rattle.fort_tables.specs.Labels.{first_word, IsOverLabels, AreLabels};
ghost use Rattle.fort_tables.specs.LabelRules.{IsLabelRule, label_of};
ghost use Rattle.fort_target_lists.specs.LayRooms.{HasLayRoom};
ghost use Rattle.fort_products.specs.HeldTargets.{AreHeldFrom};
ghost use Rattle.fort_check_steps.specs.HeldStates.{IsReadyFor, AreRightStates, IsRoomLeft};
ghost use Rattle.fort_check_steps.specs.OnePlace.{IsMade};
ghost use Rattle.fort_check_steps.specs.Guesses.{Guessed};
ghost use Rattle.fort_check_steps.specs.Room.{most_states};
ghost use Rattle.fort_check_steps.specs.StateLabelsView.{IsAsSpacious};

use crate::part_rule::PartRule;
use crate::state_labels::StateLabels;
use fort_entry_walk::Entries;
use fort_labels::LocalRule;
use fort_target_lists::LayRoom;
use fort_terms::Signature;
use fort_tuple_symbols::Row;

/// The place behind the last target that is as great as the number of states before it: no target from there on is a new state.
fn known_from(targets: &[u32]) -> usize
    ensures { result ≤ length targets.now }
{
    let mut states = 0usize;
    let mut known = 0usize;
    for place in 0..targets.len() {
        let target = targets[place] as usize;
        if target >= states {
            states = target + 1;
            known = place + 1;
        }
    }
    known
}

/// Whether a state has this presence. Without this test the later pass could go through many first children for no entry.
fn has_presence(presences: &[u16], state: u32, presence: u16) -> bool {
    match presences.get(state as usize) {
        Some(own) => *own == presence,
        _ => false,
    }
}

/// Makes a target's state, where it is a new one, with the label of the entry that is due; false where it is too great for that, or
/// has another presence than the entry.
fn make_state<R: LocalRule>(
    rule: &R,
    row: &Row,
    target: u32,
    presences: &mut Vec<u16>,
    rows: &mut StateLabels,
    out: &mut [u64],
) -> bool
    requires over { IsOverLabels (R.rule rule.now).signature (R.rule rule.now).columns
        (label_of (R.rule rule.now)) rows.old.labels row.now }
    requires width { rows.old.width ≡ R.word_count rule.now }
    requires words { length out.old ≡ R.word_count rule.now }
    requires room { target ≡ length rows.old.labels → length rows.old.labels < rows.old.room }
    requires spare { target ≡ length rows.old.labels
        → vec_len presences.old < vec_capacity presences.old }
    ensures made { IsTrue result → IsMade (R.rule rule.now) row.now target presences.old.items
        presences.new.items rows.old.labels rows.new.labels }
    ensures width { rows.new.width ≡ rows.old.width }
    ensures room { rows.new.room ≡ rows.old.room }
    ensures spaces { IsAsSpacious rows.old.spaces rows.new.spaces }
    ensures capacity { vec_capacity presences.new ≡ vec_capacity presences.old }
{
    if target as usize == rows.len() {
        rows.step(rule, row, out);
        presences.push_reserved(row.presence());
        rows.push(out);
        return true;
    }
    (target as usize) < rows.len() && has_presence(presences.as_slice(), target, row.presence())
}

/// Makes the states of the targets, each with the label of its first entry; false where a target is too great, or has no entry.
fn make_states<R: LocalRule>(
    rule: &R,
    sig: &Signature,
    targets: &[u32],
    presences: &mut Vec<u16>,
    rows: &mut StateLabels,
    out: &mut [u64],
) -> bool
    requires signature { (R.rule rule.now).signature ≡ sig.now }
    requires few { length targets.now < 2 ^ 32 }
    requires words { length out.old ≡ R.word_count rule.now }
    requires ready { IsReadyFor targets.now (R.word_count rule.now) presences.old rows.old }
    ensures guessed { IsTrue result → (k : ℕ) × (entries : List Entry) × (last : Entry)
        × Guessed (R.rule rule.now) targets.now k entries rows.new.labels last }
    ensures lawful { IsLabelRule (R.rule rule.now) }
    ensures labels { IsTrue result → AreLabels (R.rule rule.now).signature
        (R.rule rule.now).columns (label_of (R.rule rule.now)) rows.new.labels }
    ensures presences { IsTrue result → presences.new.items ≡ map first_word rows.new.labels }
    ensures left { IsRoomLeft (R.word_count rule.now) presences.old presences.new rows.old
        rows.new }
{
    let known = known_from(targets);
    let mut entries = Entries::new(sig, rule.columns());
    // its clause says that the signature is lawful
    let _symbols = sig.len();
    'targets: for place in 0..known {
        if !entries.advance(presences.as_slice()) {
            return false;
        }
        if !make_state(rule, entries.row(), targets[place], presences, rows, out) {
            return false;
        }
    }
    true
}

/// Whether the targets from a place on are those of their entries, where that is known by the rule's own means.
fn are_held<R: PartRule>(
    rule: &R,
    sig: &Signature,
    presences: &[u16],
    rows: &StateLabels,
    targets: &[u32],
    from: usize,
    lay: &mut LayRoom,
) -> bool
    requires signature { (R.rule rule.now).signature ≡ sig.now }
    requires few { length targets.now < 2 ^ 32 }
    requires few_states { length presences.now < 2 ^ 32 }
    requires presences { presences.now ≡ map first_word rows.now.labels }
    requires labels { AreLabels (R.rule rule.now).signature (R.rule rule.now).columns
        (label_of (R.rule rule.now)) rows.now.labels }
    requires room { HasLayRoom (length presences.now) lay.old }
    ensures held { IsTrue result → AreHeldFrom (R.rule rule.now) from targets.now
        rows.now.labels }
    ensures room { (n : ℕ) → HasLayRoom n lay.old → HasLayRoom n lay.new }
{
    match rows.narrow() {
        Some(labels) => rule.are_targets(lay, sig, presences, labels, targets, from),
        None => false,
    }
}

/// Whether the targets are right, where that is known by the rule's own means; else the states may be any.
pub fn are_quickly_right<R: PartRule>(
    rule: &R,
    sig: &Signature,
    targets: &[u32],
    presences: &mut Vec<u16>,
    rows: &mut StateLabels,
    out: &mut [u64],
    lay: &mut LayRoom,
) -> bool
    requires signature { (R.rule rule.now).signature ≡ sig.now }
    requires few { length targets.now < 2 ^ 32 }
    requires words { length out.old ≡ R.word_count rule.now }
    requires ready { IsReadyFor targets.now (R.word_count rule.now) presences.old rows.old }
    requires lay { HasLayRoom (most_states targets.now) lay.old }
    ensures lawful { IsTrue result → IsLabelRule (R.rule rule.now) }
    ensures right { IsTrue result → AreRightStates (R.rule rule.now) targets.now
        presences.new.items rows.new.labels }
    ensures left { IsRoomLeft (R.word_count rule.now) presences.old presences.new rows.old
        rows.new }
    ensures lay { (n : ℕ) → HasLayRoom n lay.old → HasLayRoom n lay.new }
{
    if !rule.is_quick() {
        return false;
    }
    if !make_states(rule, sig, targets, presences, rows, out) {
        return false;
    }
    are_held(rule, sig, presences.as_slice(), rows, targets, 0, lay)
}
