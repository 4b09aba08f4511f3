//! Reads a certificate.
ghost use Rattle.std.specs.Prelude.{IfOk, IfErr, IfSome, IsErrOf};
ghost use Rattle.fort_grammar.specs.Declarations.{as_list};
ghost use Rattle.fort_certificate_theory.specs.Certificates as certificates;
ghost use Rattle.fort_certificate_theory.specs.CertificateForms.{IsCertificate};
ghost use Rattle.fort_certificate_theory.specs.CertificateFaults.{IsFirstCertificateFault};
ghost use Rattle.fort_steps.specs.CertificateView.{as_certificate};
ghost use Rattle.fort_certificate.specs.declared.fault.CertificateFault.TheVariants.{Memory};
ghost use Rattle.fort_certificate.specs.Faults.{as_fault};

use crate::build::steps;
use crate::check::{check_header, check_steps};
use crate::fault::CertificateFault;
use fort_sexpr::Forms;
use fort_steps::Certificate;
use std::alloc::Global;

/// Reads the certificate that the forms from a number on are, of a problem of so many systems, or finds their first fault.
pub fn read(
    alloc: Global,
    forms: &Forms,
    from: u32,
    number: u32,
) -> Result<Certificate, CertificateFault>
    ensures ok { IfOk result (λ c. IsCertificate forms.now.bytes number
        (as_list forms.now.forms) from (as_certificate c)) }
    ensures fault { IfErr result (λ fault. IfSome (as_fault fault)
        (IsFirstCertificateFault forms.now.bytes number (as_list forms.now.forms) from)) }
    ensures memory { IsErrOf result Memory → (c : certificates.Certificate) ×
        IsCertificate forms.now.bytes number (as_list forms.now.forms) from c }
{
    let end = forms.len();
    if from as usize >= end {
        return Err(CertificateFault::BadForm(from));
    }
    let header = check_header(&forms.form(from as usize), number, from)?;
    let first = from as usize + 1;
    let steps = match steps(alloc, forms, first, end, header.version) {
        Ok(steps) => steps,
        Err(fault) => match fault {
            CertificateFault::Memory => {
                // A form that is no step comes before want of memory, and is found without any.
                check_steps(forms, first, end, header.version)?;
                return Err(CertificateFault::Memory);
            }
            _ => return Err(fault),
        },
    };
    Ok(Certificate {
        first: from,
        verdict: header.verdict,
        steps,
    })
}
