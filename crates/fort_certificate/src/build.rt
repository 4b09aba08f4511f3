//! Reads forms as steps, each number once, and says what is wrong with the first that is none.
ghost use Rattle.std.specs.Prelude.{◌≡◌, ℕ, ◌^◌, ◌≤◌, List, [], ◌∷◌, Some, map, IfSome, IfNone, IfOk, IfErr};
ghost use Rattle.std.specs.List.{AllZip};
ghost use Rattle.fort_grammar.specs.Declarations.{as_list};
ghost use Rattle.fort_grammar.specs.Forms as grammar;
ghost use Rattle.fort_certificate_theory.specs.CertificateForms.{Version as GrammarVersion, IsNumberForm, IsPairForm, IsCountForm, IsStepForm};
ghost use Rattle.fort_certificate_theory.specs.CertificateFaults.{NumberSlot, PairSlot, CountSlot, ClosureHead, PartHead, MergeHead, CountsHead, ValueHead, fault_of, AreBad, IsBadAt, IsBadStep};
ghost use Rattle.fort_sexpr.specs.FormView.{form_count};
ghost use Rattle.fort_findings.specs.FindingView.{as_pair, as_count};
ghost use Rattle.fort_steps.specs.StepView.{as_step};
ghost use Rattle.fort_certificate.specs.declared.build.Unread.TheVariants as unread;
ghost use Rattle.fort_certificate.specs.Checking.{AreElementsOf, AreBadElementsOf, HasBadStep, between};
ghost use Rattle.fort_certificate.specs.Faults.{as_fault};
ghost use Rattle.fort_certificate.specs.ReadView.{as_kind, as_wrong};
ghost use Rattle.fort_certificate.specs.VersionView.{as_version};

use crate::check::fault_at;
use crate::fault::CertificateFault;
use crate::slot::{Head, head_of};
use crate::value::{Wrong, count_in, entry_in, number_in, verdict_in, which_in};
use crate::version::Version;
use crate::word::parse_number;
use fort_findings::{ClosureEntry, Count};
use fort_sexpr::{Form, FormList, Forms};
use fort_steps::Step;
use std::alloc::{AllocError, Global};

/// Why a step was not read.
#[derive(Clone, Copy)]
pub(crate) enum Unread {
    /// An element is wrong, or the whole form.
    Wrong(Wrong),
    /// There is not enough memory.
    Memory,
}

impl From<Wrong> for Unread {
    ghost from_gives = { λ wrong e. e ≡ unread.Wrong wrong };

    fn from(wrong: Wrong) -> Unread {
        Unread::Wrong(wrong)
    }
}

impl From<AllocError> for Unread {
    ghost from_gives = { λ _ e. e ≡ unread.Memory };

    fn from(_e: AllocError) -> Unread {
        Unread::Memory
    }
}

/// The number that the first form is, and the forms behind it, unless there is none.
fn split_number<'a>(list: &FormList<'a>) -> Result<Option<(u32, FormList<'a>)>, Wrong>
    ensures some { IfOk result (λ r. IfSome r (λ p. (f : grammar.Form)
        × (list.now.forms ≡ f ∷ p.1.forms) × IsNumberForm list.now.bytes f p.0)) }
    ensures bytes { IfOk result (λ r. IfSome r (λ p. p.1.bytes ≡ list.now.bytes)) }
    ensures none { IfOk result (λ r. IfNone r (list.now.forms ≡ [])) }
    ensures err { IfErr result (λ wrong. (f : grammar.Form) × (fs : List grammar.Form)
        × (list.now.forms ≡ f ∷ fs) × IsBadAt list.now.bytes f NumberSlot (as_kind wrong)) }
{
    // nearly all that a certificate has are numbers, which are read in one go
    if let Some((digits, behind)) = list.split_digits() {
        if let Some(number) = parse_number(digits) {
            return Ok(Some((number, behind)));
        }
    }
    match list.split_first() {
        Some((form, behind)) => Ok(Some((number_in(&form)?, behind))),
        None => Ok(None),
    }
}

/// The numbers that forms are.
pub(crate) fn numbers(alloc: Global, elements: FormList) -> Result<Vec<u32>, Unread>
    ensures ok { IfOk result (λ v.
        AllZip (IsNumberForm elements.entry.bytes) elements.entry.forms v.items) }
    ensures wrong { IfErr result (λ e. IfSome (as_wrong e)
        (AreBad elements.entry.bytes [] (Some NumberSlot) elements.entry.forms)) }
{
    let mut numbers = Vec::with_capacity(alloc, elements.len())?;
    let mut rest = elements;
    'elements: while let Some((number, behind)) = split_number(&rest)? {
        numbers.push_reserved(number);
        rest = behind;
    }
    Ok(numbers)
}

/// The pairs of a closure that forms are.
fn entries(alloc: Global, elements: FormList) -> Result<Vec<ClosureEntry>, Unread>
    ensures ok { IfOk result (λ v.
        AllZip (IsPairForm elements.entry.bytes) elements.entry.forms (map as_pair v.items)) }
    ensures wrong { IfErr result (λ e. IfSome (as_wrong e)
        (AreBad elements.entry.bytes [] (Some PairSlot) elements.entry.forms)) }
{
    let mut entries = Vec::with_capacity(alloc, elements.len())?;
    let mut rest = elements;
    'elements: while let Some((form, behind)) = rest.split_first() {
        entries.push_reserved(entry_in(&form)?);
        rest = behind;
    }
    Ok(entries)
}

/// The counts that forms are.
fn counts(alloc: Global, elements: FormList) -> Result<Vec<Count>, Unread>
    ensures ok { IfOk result (λ v.
        AllZip (IsCountForm elements.entry.bytes) elements.entry.forms (map as_count v.items)) }
    ensures wrong { IfErr result (λ e. IfSome (as_wrong e)
        (AreBad elements.entry.bytes [] (Some CountSlot) elements.entry.forms)) }
{
    let mut counts = Vec::with_capacity(alloc, elements.len())?;
    let mut rest = elements;
    'elements: while let Some((form, behind)) = rest.split_first() {
        counts.push_reserved(count_in(&form)?);
        rest = behind;
    }
    Ok(counts)
}

/// The closure with these forms behind its head, in this version.
fn closure(alloc: Global, elements: &FormList, version: Version) -> Result<Step, Unread>
    ensures ok { IfOk result (λ step. AreElementsOf elements.now.bytes (as_version version)
        ClosureHead elements.now.forms (as_step step)) }
    ensures wrong { IfErr result (λ e. IfSome (as_wrong e) (AreBadElementsOf
        elements.now.bytes (as_version version) ClosureHead elements.now.forms)) }
{
    let Some((kind, rest)) = elements.split_first() else {
        return Err(Unread::Wrong(Wrong::Form));
    };
    let Some(which) = which_in(&kind) else {
        return Err(Unread::Wrong(Wrong::Form));
    };
    if !version.tells_index() {
        return Ok(Step::Closure(which, 1, entries(alloc, rest)?));
    }
    let Some((system, rest)) = rest.split_first() else {
        return Err(Unread::Wrong(Wrong::Form));
    };
    Ok(Step::Closure(which, number_in(&system)?, entries(alloc, rest)?))
}

/// The number of a part, and the numbers behind it.
fn part_and_numbers(alloc: Global, elements: &FormList) -> Result<(u32, Vec<u32>), Unread>
    ensures ok { IfOk result (λ p. (f : grammar.Form) × (fs : List grammar.Form)
        × (elements.now.forms ≡ f ∷ fs) × IsNumberForm elements.now.bytes f p.0
        × AllZip (IsNumberForm elements.now.bytes) fs p.1.items) }
    ensures wrong { IfErr result (λ e. IfSome (as_wrong e)
        (AreBad elements.now.bytes (NumberSlot ∷ []) (Some NumberSlot) elements.now.forms)) }
{
    let Some((part, rest)) = elements.split_first() else {
        return Err(Unread::Wrong(Wrong::Form));
    };
    Ok((number_in(&part)?, numbers(alloc, rest)?))
}

fn part(alloc: Global, elements: &FormList) -> Result<Step, Unread>
    ensures ok { IfOk result (λ step. (version : GrammarVersion) →
        AreElementsOf elements.now.bytes version PartHead elements.now.forms (as_step step)) }
    ensures wrong { IfErr result (λ e. IfSome (as_wrong e) (λ kind. (version : GrammarVersion) →
        AreBadElementsOf elements.now.bytes version PartHead elements.now.forms kind)) }
{
    let (part, targets) = part_and_numbers(alloc, elements)?;
    Ok(Step::Part(part, targets))
}

fn merge(alloc: Global, elements: &FormList) -> Result<Step, Unread>
    ensures ok { IfOk result (λ step. (version : GrammarVersion) →
        AreElementsOf elements.now.bytes version MergeHead elements.now.forms (as_step step)) }
    ensures wrong { IfErr result (λ e. IfSome (as_wrong e) (λ kind. (version : GrammarVersion) →
        AreBadElementsOf elements.now.bytes version MergeHead elements.now.forms kind)) }
{
    let (part, classes) = part_and_numbers(alloc, elements)?;
    Ok(Step::Merge(part, classes))
}

fn counts_step(alloc: Global, elements: &FormList) -> Result<Step, Unread>
    ensures ok { IfOk result (λ step. (version : GrammarVersion) →
        AreElementsOf elements.now.bytes version CountsHead elements.now.forms (as_step step)) }
    ensures wrong { IfErr result (λ e. IfSome (as_wrong e) (λ kind. (version : GrammarVersion) →
        AreBadElementsOf elements.now.bytes version CountsHead elements.now.forms kind)) }
{
    let Some((part, rest)) = elements.split_first() else {
        return Err(Unread::Wrong(Wrong::Form));
    };
    Ok(Step::Counts(number_in(&part)?, counts(alloc, rest)?))
}

fn value(elements: &FormList) -> Result<Step, Wrong>
    ensures ok { IfOk result (λ step. (version : GrammarVersion) →
        AreElementsOf elements.now.bytes version ValueHead elements.now.forms (as_step step)) }
    ensures wrong { IfErr result (λ wrong. (version : GrammarVersion) → AreBadElementsOf
        elements.now.bytes version ValueHead elements.now.forms (as_kind wrong)) }
{
    let Some((part, rest)) = elements.split_first() else {
        return Err(Wrong::Form);
    };
    let number = number_in(&part)?;
    let Some((last, behind)) = rest.split_first() else {
        return Err(Wrong::Form);
    };
    let Some(verdict) = verdict_in(&last) else {
        return Err(Wrong::Form);
    };
    if !behind.is_empty() {
        return Err(Wrong::Form);
    }
    Ok(Step::Value(number, verdict))
}

/// The step that a form is, in this version.
fn step(alloc: Global, form: &Form, version: Version) -> Result<Step, Unread>
    ensures ok { IfOk result (λ step.
        IsStepForm form.now.bytes (as_version version) form.now.form (as_step step)) }
    ensures wrong { IfErr result (λ e. IfSome (as_wrong e) (λ kind. (i : ℕ) →
        IsBadStep form.now.bytes (as_version version) i form.now.form (fault_of i kind))) }
{
    let Some(head) = head_of(form, version) else {
        return Err(Unread::Wrong(Wrong::Form));
    };
    let Some(list) = form.elements() else {
        unreachable!()
    };
    let Some((_head, elements)) = list.split_first() else {
        unreachable!()
    };
    match head {
        Head::Closure => closure(alloc, &elements, version),
        Head::Part => part(alloc, &elements),
        Head::Merge => merge(alloc, &elements),
        Head::Counts => counts_step(alloc, &elements),
        Head::Value => Ok(value(&elements)?),
    }
}

/// The steps of this version that the forms from a number up to another one are, or the fault of the first that is none.
pub(crate) fn steps(
    alloc: Global,
    forms: &Forms,
    from: usize,
    end: usize,
    version: Version,
) -> Result<Vec<Step>, CertificateFault>
    requires order { from ≤ end }
    requires within { end ≤ form_count forms.now.forms }
    requires small { end ≤ 2 ^ 32 }
    ensures ok { IfOk result (λ v. AllZip (IsStepForm forms.now.bytes (as_version version))
        (between from end (as_list forms.now.forms)) (map as_step v.items)) }
    ensures fault { IfErr result (λ fault. IfSome (as_fault fault) (HasBadStep forms.now.bytes
        (as_version version) from (between from end (as_list forms.now.forms)))) }
{
    let mut steps = Vec::with_capacity(alloc, end - from)?;
    'steps: for i in from..end {
        match step(alloc, &forms.form(i), version) {
            Ok(step) => steps.push_reserved(step),
            Err(Unread::Wrong(wrong)) => return Err(fault_at(i as u32, wrong)),
            Err(Unread::Memory) => return Err(CertificateFault::Memory),
        }
    }
    Ok(steps)
}
