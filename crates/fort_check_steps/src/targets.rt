//! The targets of a part, held against the entries in their order.
ghost use Rattle.std.specs.Prelude.{◌≡◌, ◌<◌, ◌^◌, length, vec_len, vec_capacity, OnOk, IfErr};
ghost use Rattle.fort_tables.specs.Labels.{IsOverLabels};
ghost use Rattle.fort_tables.specs.LabelRules.{IsLabelRule, label_of};
ghost use Rattle.fort_certificate_theory.specs.PartSteps.{IsPartOutcome};
ghost use Rattle.fort_check_steps.specs.OnePlace.{IsTaken, IsRefused};
ghost use Rattle.fort_check_steps.specs.HeldStates.{IsReadyFor, AreRightStates, IsRoomLeft};
ghost use Rattle.fort_check_steps.specs.StateLabelsView.{IsAsSpacious};
ghost use Rattle.fort_check_steps.specs.StepAnswers.{outcome_of};

use crate::failure::{Failure, Reason, failed};
use crate::state_labels::StateLabels;
use fort_entry_walk::Entries;
use fort_labels::LocalRule;
use fort_terms::Signature;
use fort_tuple_symbols::Row;

/// Holds a target against the entry that is due.
fn take_target<R: LocalRule>(
    rule: &R,
    row: &Row,
    target: u32,
    presences: &mut Vec<u16>,
    rows: &mut StateLabels,
    out: &mut [u64],
) -> Result<(), Reason>
    requires over { IsOverLabels (R.rule rule.now).signature (R.rule rule.now).columns
        (label_of (R.rule rule.now)) rows.old.labels row.now }
    requires width { rows.old.width ≡ R.word_count rule.now }
    requires words { length out.old ≡ R.word_count rule.now }
    requires room { target ≡ length rows.old.labels → length rows.old.labels < rows.old.room }
    requires spare { target ≡ length rows.old.labels
        → vec_len presences.old < vec_capacity presences.old }
    ensures taken { OnOk result (IsTaken (R.rule rule.now) row.now target presences.old.items
        presences.new.items rows.old.labels rows.new.labels) }
    ensures refused { IfErr result (IsRefused (R.rule rule.now) row.now target rows.old.labels) }
    ensures width { rows.new.width ≡ rows.old.width }
    ensures room { rows.new.room ≡ rows.old.room }
    ensures spaces { IsAsSpacious rows.old.spaces rows.new.spaces }
    ensures capacity { vec_capacity presences.new ≡ vec_capacity presences.old }
{
    if target as usize > rows.len() {
        return Err(Reason::Target);
    }
    rows.step(rule, row, out);
    if target as usize == rows.len() {
        presences.push_reserved(row.presence());
        rows.push(out);
        return Ok(());
    }
    if rows.is_label(target, out) {
        Ok(())
    } else {
        Err(Reason::Label)
    }
}

/// Holds the targets against the entries in their order.
pub fn check_targets<R: LocalRule>(
    rule: &R,
    sig: &Signature,
    targets: &[u32],
    presences: &mut Vec<u16>,
    rows: &mut StateLabels,
    out: &mut [u64],
) -> Result<(), Failure>
    requires signature { (R.rule rule.now).signature ≡ sig.now }
    requires few { length targets.now < 2 ^ 32 }
    requires words { length out.old ≡ R.word_count rule.now }
    requires ready { IsReadyFor targets.now (R.word_count rule.now) presences.old rows.old }
    ensures outcome { IsPartOutcome (R.rule rule.now) targets.now (outcome_of result) }
    ensures lawful { IsLabelRule (R.rule rule.now) }
    ensures right { OnOk result (AreRightStates (R.rule rule.now) targets.now presences.new.items
        rows.new.labels) }
    ensures left { IsRoomLeft (R.word_count rule.now) presences.old presences.new rows.old
        rows.new }
{
    let mut entries = Entries::new(sig, rule.columns());
    // its clause says that the signature is lawful
    let _symbols = sig.len();
    'targets: for place in 0..targets.len() {
        if !entries.advance(presences.as_slice()) {
            return failed(place, Reason::Long);
        }
        match take_target(rule, entries.row(), targets[place], presences, rows, out) {
            Ok(()) => {}
            Err(reason) => return failed(place, reason),
        }
    }
    if entries.advance(presences.as_slice()) {
        return failed(targets.len(), Reason::Short);
    }
    Ok(())
}
