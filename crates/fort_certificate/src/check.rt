//! Finds the first fault of forms that are no certificate, without memory.
ghost use Rattle.std.specs.Prelude.{◌≡◌, ℕ, ◌^◌, ◌<◌, ◌≤◌, Some, map, drop, length, IfSome, IfNone, IfOk, IfErr};
ghost use Rattle.fort_grammar.specs.Declarations.{as_list};
ghost use Rattle.fort_certificate_theory.specs.CertificateForms.{Version as GrammarVersion, version_word, IsVersionOf, IsHeaderForm};
ghost use Rattle.fort_certificate_theory.specs.CertificateFaults.{fault_of, AreBad, IsBadStep, IsBadHeader};
ghost use Rattle.fort_certificate_theory.specs.FilledSlots.{FitAll};
ghost use Rattle.fort_sexpr.specs.FormView.{form_count, word_ahead};
ghost use Rattle.fort_certificate.specs.Faults.{as_fault, IsFault};
ghost use Rattle.fort_certificate.specs.Checking.{IsSomeStep, AreSomeSteps, HasBadStep, between};
ghost use Rattle.fort_certificate.specs.ReadView.{as_kind, as_slot, as_last};
ghost use Rattle.fort_certificate.specs.VersionView.{as_version};

use crate::fault::CertificateFault;
use crate::slot::{Slot, check_slot, first_slots, head_of, last_slot, slot_of};
use crate::value::{Wrong, three_words, verdict_ahead};
use crate::version::Version;
use crate::word::number_ahead;
use fort_sexpr::{Form, FormList, Forms, is_ahead};

/// Whether these slots stand behind the head, and any number of the last one, if there is one.
pub(crate) fn check_elements(
    list: &FormList,
    first: &[Slot],
    last: Option<Slot>,
) -> Result<(), Wrong>
    requires { 0 < length list.now.forms }
    ensures ok { IfOk result (λ _. FitAll list.now.bytes
        (map as_slot first.now) (as_last last) (drop 1 list.now.forms)) }
    ensures err { IfErr result (λ wrong. AreBad list.now.bytes
        (map as_slot first.now) (as_last last) (drop 1 list.now.forms) (as_kind wrong)) }
{
    let Some((_head, mut rest)) = list.split_first() else {
        unreachable!()
    };
    'places: for place in 0..rest.len() {
        let Some((form, behind)) = rest.split_first() else {
            unreachable!()
        };
        let Some(slot) = slot_of(first, last, place) else {
            return Err(Wrong::Form);
        };
        check_slot(&form, slot)?;
        rest = behind;
    }
    if list.len() <= first.len() {
        return Err(Wrong::Form);
    }
    Ok(())
}

/// Whether a form is a step of a certificate of this version.
fn check_step(form: &Form, version: Version) -> Result<(), Wrong>
    ensures ok { IfOk result (λ _.
        IsSomeStep form.now.bytes (as_version version) form.now.form) }
    ensures err { IfErr result (λ wrong. (i : ℕ) →
        IsBadStep form.now.bytes (as_version version) i form.now.form
        (fault_of i (as_kind wrong))) }
{
    let Some(head) = head_of(form, version) else {
        return Err(Wrong::Form);
    };
    let Some(list) = form.elements() else {
        unreachable!()
    };
    check_elements(&list, first_slots(head, version), last_slot(head))
}

/// The version that a word is, of those of a problem of so many systems.
fn version_ahead(bytes: &[u8], number: u32) -> Option<Version>
    ensures some { IfSome result (λ version.
        word_ahead bytes.now ≡ version_word (as_version version)) }
    ensures of_problem { IfSome result (λ version. IsVersionOf number (as_version version)) }
    ensures none { IfNone result ((version : GrammarVersion) → IsVersionOf number version
        → word_ahead bytes.now ≡ version_word version → ⊥) }
{
    let plain = Version::new(false, number);
    if is_ahead(bytes, plain.word()) {
        return Some(plain);
    }
    let reduced = Version::new(true, number);
    if is_ahead(bytes, reduced.word()) {
        return Some(reduced);
    }
    None
}

/// What the header says.
#[derive(Clone, Copy)]
pub(crate) struct Header {
    pub version: Version,
    pub verdict: bool,
}

/// The header of a certificate of a problem of so many systems.
pub(crate) fn check_header(form: &Form, number: u32, i: u32) -> Result<Header, CertificateFault>
    ensures ok { IfOk result (λ header. IsHeaderForm form.now.bytes
        (as_version header.version) form.now.form header.verdict) }
    ensures of_problem { IfOk result (λ header. IsVersionOf number (as_version header.version)) }
    ensures fault { IfErr result (IsFault
        (IsBadHeader form.now.bytes number i form.now.form)) }
{
    let Some(words) = three_words(form) else {
        return Err(CertificateFault::BadForm(i));
    };
    if !is_ahead(words.first, b"certificate") {
        return Err(CertificateFault::BadForm(i));
    }
    let Some(version) = version_ahead(words.second, number) else {
        return match number_ahead(words.second) {
            Some(_version) => Err(CertificateFault::Version(i)),
            None => Err(CertificateFault::BadNumber(i)),
        };
    };
    match verdict_ahead(words.third) {
        Some(verdict) => Ok(Header { version, verdict }),
        None => Err(CertificateFault::BadForm(i)),
    }
}

/// The fault of a form.
pub(crate) fn fault_at(i: u32, wrong: Wrong) -> CertificateFault
    ensures { as_fault result ≡ Some (fault_of i (as_kind wrong)) }
{
    match wrong {
        Wrong::Form => CertificateFault::BadForm(i),
        Wrong::Number => CertificateFault::BadNumber(i),
    }
}

/// Whether the forms from a number up to another one are steps of this version.
pub(crate) fn check_steps(
    forms: &Forms,
    from: usize,
    end: usize,
    version: Version,
) -> Result<(), CertificateFault>
    requires order { from ≤ end }
    requires within { end ≤ form_count forms.now.forms }
    requires small { end ≤ 2 ^ 32 }
    ensures ok { IfOk result (λ _. AreSomeSteps forms.now.bytes (as_version version)
        (between from end (as_list forms.now.forms))) }
    ensures fault { IfErr result (IsFault (HasBadStep forms.now.bytes (as_version version) from
        (between from end (as_list forms.now.forms)))) }
{
    'steps: for i in from..end {
        match check_step(&forms.form(i), version) {
            Ok(()) => {}
            Err(wrong) => return Err(fault_at(i as u32, wrong)),
        }
    }
    Ok(())
}
