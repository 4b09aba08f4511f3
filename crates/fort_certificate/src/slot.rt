//! What stands at which place of a step, and what is wrong there.
ghost use Rattle.std.specs.Prelude.{◌≡◌, true, map, IfSome, IfNone, IfOk, IfErr};
ghost use Rattle.fort_grammar.specs.Declarations.{IsHeaded};
ghost use Rattle.fort_certificate_theory.specs.CertificateFaults.{StepHead, ClosureHead, head_word, is_head_of, slots_of, rest_of, Fits, IsBadAt};
ghost use Rattle.fort_certificate.specs.ReadView.{as_kind, as_slot, as_last, as_head, slot_at};
ghost use Rattle.fort_certificate.specs.VersionView.{as_version};

use crate::value::{Wrong, count_in, entry_in, number_in, verdict_in, which_in};
use crate::version::Version;
use fort_sexpr::Form;

/// What may stand at a place.
#[derive(Clone, Copy)]
pub(crate) enum Slot {
    Which,
    Number,
    Verdict,
    Entry,
    Count,
}

/// The head of a step.
#[derive(Clone, Copy)]
pub(crate) enum Head {
    Closure,
    Part,
    Merge,
    Counts,
    Value,
}

/// The head of a form that may be a step of this version.
pub(crate) fn head_of(form: &Form, version: Version) -> Option<Head>
    ensures some { IfSome result (λ head.
        IsHeaded form.now.bytes (head_word (as_head head)) form.now.form) }
    ensures allowed { IfSome result (λ head.
        is_head_of (as_version version) (as_head head) ≡ true) }
    ensures none { IfNone result ((head : StepHead) → is_head_of (as_version version) head ≡ true
        → IsHeaded form.now.bytes (head_word head) form.now.form → ⊥) }
{
    if form.is_headed(b"closure") {
        return Some(Head::Closure);
    }
    if form.is_headed(b"part") {
        return Some(Head::Part);
    }
    if version.has_merges() && form.is_headed(b"merge") {
        return Some(Head::Merge);
    }
    if form.is_headed(b"counts") {
        return Some(Head::Counts);
    }
    if form.is_headed(b"value") {
        return Some(Head::Value);
    }
    None
}

const WHICH: &[Slot] = &[Slot::Which];

const WHICH_AND_INDEX: &[Slot] = &[Slot::Which, Slot::Number];

const NUMBER: &[Slot] = &[Slot::Number];

const NUMBER_AND_VERDICT: &[Slot] = &[Slot::Number, Slot::Verdict];

/// What stands behind a head, in this version.
pub(crate) fn first_slots(head: Head, version: Version) -> &'static [Slot]
    ensures { map as_slot result.now ≡ slots_of (as_head head) (as_version version) }
{
    match head {
        Head::Closure => closure_slots(version),
        Head::Part => NUMBER,
        Head::Merge => NUMBER,
        Head::Counts => NUMBER,
        Head::Value => NUMBER_AND_VERDICT,
    }
}

fn closure_slots(version: Version) -> &'static [Slot]
    ensures { map as_slot result.now ≡ slots_of ClosureHead (as_version version) }
{
    if version.tells_index() {
        WHICH_AND_INDEX
    } else {
        WHICH
    }
}

/// What may follow, any number of times.
pub(crate) fn last_slot(head: Head) -> Option<Slot>
    ensures { as_last result ≡ rest_of (as_head head) }
{
    match head {
        Head::Closure => Some(Slot::Entry),
        Head::Part => Some(Slot::Number),
        Head::Merge => Some(Slot::Number),
        Head::Counts => Some(Slot::Count),
        Head::Value => None,
    }
}

/// What may stand at a place.
pub(crate) fn slot_of(first: &[Slot], last: Option<Slot>, place: usize) -> Option<Slot>
    ensures { as_last result ≡ slot_at place (map as_slot first.now) (as_last last) }
{
    match first.get(place) {
        Some(slot) => Some(*slot),
        None => last,
    }
}

pub(crate) fn check_slot(form: &Form, slot: Slot) -> Result<(), Wrong>
    ensures ok { IfOk result (λ _. Fits form.now.bytes form.now.form (as_slot slot)) }
    ensures err { IfErr result (λ wrong.
        IsBadAt form.now.bytes form.now.form (as_slot slot) (as_kind wrong)) }
{
    match slot {
        Slot::Which => match which_in(form) {
            Some(_which) => Ok(()),
            None => Err(Wrong::Form),
        },
        Slot::Number => match number_in(form) {
            Ok(_n) => Ok(()),
            Err(wrong) => Err(wrong),
        },
        Slot::Verdict => match verdict_in(form) {
            Some(_verdict) => Ok(()),
            None => Err(Wrong::Form),
        },
        Slot::Entry => match entry_in(form) {
            Ok(_entry) => Ok(()),
            Err(wrong) => Err(wrong),
        },
        Slot::Count => match count_in(form) {
            Ok(_count) => Ok(()),
            Err(wrong) => Err(wrong),
        },
    }
}
