//! Reads a certificate of an open formula.
ghost use Rattle.std.specs.Prelude.{◌≡◌, ◌≤◌, Some, slice_get, IfSome, IfNone, IfOk, IfErr, IsErrOf};
ghost use Rattle.std.specs.List.{AllByRecursion};
ghost use Rattle.fort_grammar.specs.Forms as grammar;
ghost use Rattle.fort_grammar.specs.Declarations.{as_list, IsHeaded};
ghost use Rattle.fort_certificate_theory.specs.OpenCertificates as certificates;
ghost use Rattle.fort_certificate_theory.specs.OpenForms.{claim_word, node_word, IsOpenHeaderForm, IsOpenCertificate};
ghost use Rattle.fort_certificate_theory.specs.OpenFaults.{IsBadOpenHeader, IsFirstOpenFault};
ghost use Rattle.fort_steps.specs.OpenView.{as_claim, as_open};
ghost use Rattle.fort_sexpr.specs.FormView.{form_count, word_ahead};
ghost use Rattle.fort_certificate.specs.declared.fault.CertificateFault.TheVariants.{Memory};
ghost use Rattle.fort_certificate.specs.Checking.{between};
ghost use Rattle.fort_certificate.specs.Faults.{as_fault, IsFault};

use crate::build::steps;
use crate::check::check_steps;
use crate::fault::CertificateFault;
use crate::node::{check_nodes, nodes};
use crate::value::three_words;
use crate::version::Version;
use crate::word::number_ahead;
use fort_sexpr::{Form, Forms, is_ahead};
use fort_steps::{Claim, OpenCertificate};
use std::alloc::Global;

/// The claim that a word is, by the bytes from its first one on.
fn claim_ahead(bytes: &[u8]) -> Option<Claim>
    ensures some { IfSome result (λ claim. word_ahead bytes.now ≡ claim_word (as_claim claim)) }
    ensures none { IfNone result ((claim : certificates.Claim) →
        word_ahead bytes.now ≡ claim_word claim → ⊥) }
{
    if is_ahead(bytes, b"found") {
        return Some(Claim::Found);
    }
    if is_ahead(bytes, b"empty") {
        return Some(Claim::Empty);
    }
    None
}

/// What the header claims.
fn check_open_header(form: &Form, i: u32) -> Result<Claim, CertificateFault>
    ensures ok { IfOk result (λ claim.
        IsOpenHeaderForm form.now.bytes form.now.form (as_claim claim)) }
    ensures fault { IfErr result (IsFault (IsBadOpenHeader form.now.bytes i form.now.form)) }
{
    let Some(words) = three_words(form) else {
        return Err(CertificateFault::BadForm(i));
    };
    if !is_ahead(words.first, b"certificate") {
        return Err(CertificateFault::BadForm(i));
    }
    if !is_ahead(words.second, b"4") {
        return match number_ahead(words.second) {
            Some(_version) => Err(CertificateFault::Version(i)),
            None => Err(CertificateFault::BadNumber(i)),
        };
    }
    match claim_ahead(words.third) {
        Some(claim) => Ok(claim),
        None => Err(CertificateFault::BadForm(i)),
    }
}

/// The number of the first form from a number on that is headed as a node, or how many forms there are.
fn first_node(forms: &Forms, from: usize) -> usize
    requires { from ≤ form_count forms.now.forms }
    ensures after { from ≤ result }
    ensures within { result ≤ form_count forms.now.forms }
    ensures none { AllByRecursion (λ f. IsHeaded forms.now.bytes node_word f → ⊥)
        (between from result (as_list forms.now.forms)) }
    ensures headed { (f : grammar.Form) → slice_get (as_list forms.now.forms) result ≡ Some f
        → IsHeaded forms.now.bytes node_word f }
{
    'forms: for i in from..forms.len() {
        if forms.form(i).is_headed(b"node") {
            return i;
        }
    }
    forms.len()
}

/// Reads the certificate of an open formula that the forms from a number on are, or finds their first fault.
pub fn read_open(
    alloc: Global,
    forms: &Forms,
    from: u32,
) -> Result<OpenCertificate, CertificateFault>
    ensures ok { IfOk result (λ c. IsOpenCertificate forms.now.bytes
        (as_list forms.now.forms) from (as_open c)) }
    ensures fault { IfErr result (λ fault. IfSome (as_fault fault)
        (IsFirstOpenFault forms.now.bytes (as_list forms.now.forms) from)) }
    ensures memory { IsErrOf result Memory → (c : certificates.OpenCertificate) ×
        IsOpenCertificate forms.now.bytes (as_list forms.now.forms) from c }
{
    if from as usize >= forms.len() {
        return Err(CertificateFault::BadForm(from));
    }
    let claim = check_open_header(&forms.form(from as usize), from)?;
    let first = from as usize + 1;
    let end = first_node(forms, first);
    let steps = match steps(alloc, forms, first, end, Version::OfReduced) {
        Ok(steps) => steps,
        Err(fault) => match fault {
            CertificateFault::Memory => {
                // A form that is wrong comes before want of memory, and is found without any.
                check_steps(forms, first, end, Version::OfReduced)?;
                check_nodes(forms, end)?;
                return Err(CertificateFault::Memory);
            }
            _ => return Err(fault),
        },
    };
    check_nodes(forms, end)?;
    Ok(OpenCertificate {
        first: from,
        claim,
        steps,
        nodes: nodes(alloc, forms, end)?,
    })
}
