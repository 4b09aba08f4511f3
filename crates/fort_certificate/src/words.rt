//! The words of a certificate, each behind a blank.
ghost use Rattle.std.specs.Prelude.{◌≡◌, ◌∷◌, ◌++◌, decimal, OnOk};
ghost use Rattle.fort_certificate_theory.specs.CertificateForms.{version_word, verdict_word, which_word};
ghost use Rattle.fort_certificate_theory.specs.CertificateText.{why_word, IsSmall, IsSmallWhy};
ghost use Rattle.fort_findings.specs.FindingView.{as_which, as_why};
ghost use Rattle.fort_certificate.specs.VersionView.{as_version};

use crate::version::Version;
use fort_findings::{Reason, Which};
use itoa::Buffer;
use std::alloc::AllocError;

pub(crate) fn push_digits(out: &mut Vec<u8>, n: u32) -> Result<(), AllocError>
    ensures text { OnOk result (out.new.items ≡ out.old.items ++ decimal n) }
    ensures small { OnOk result (IsSmall n) }
{
    let mut buffer = Buffer::new();
    out.extend_from_slice(buffer.format(n).as_bytes())
}

pub(crate) fn push_number(out: &mut Vec<u8>, n: u32) -> Result<(), AllocError>
    ensures text { OnOk result (out.new.items ≡ out.old.items ++ 32 ∷ decimal n) }
    ensures small { OnOk result (IsSmall n) }
{
    out.push(b' ')?;
    push_digits(out, n)
}

pub(crate) fn push_version(out: &mut Vec<u8>, version: Version) -> Result<(), AllocError>
    ensures { OnOk result (out.new.items ≡
        out.old.items ++ 32 ∷ version_word (as_version version)) }
{
    out.push(b' ')?;
    out.extend_from_slice(version.word())
}

pub(crate) fn push_verdict(out: &mut Vec<u8>, verdict: bool) -> Result<(), AllocError>
    ensures { OnOk result (out.new.items ≡ out.old.items ++ 32 ∷ verdict_word verdict) }
{
    match verdict {
        true => out.extend_from_slice(b" yes"),
        false => out.extend_from_slice(b" no"),
    }
}

pub(crate) fn push_which(out: &mut Vec<u8>, which: Which) -> Result<(), AllocError>
    ensures { OnOk result (out.new.items ≡ out.old.items ++ 32 ∷ which_word (as_which which)) }
{
    match which {
        Which::Star => out.extend_from_slice(b" star"),
        Which::Conv => out.extend_from_slice(b" conv"),
    }
}

pub(crate) fn push_reason(out: &mut Vec<u8>, why: Reason) -> Result<(), AllocError>
    ensures text { OnOk result (out.new.items ≡ out.old.items ++ 32 ∷ why_word (as_why why)) }
    ensures small { OnOk result (IsSmallWhy (as_why why)) }
{
    match why {
        Reason::Any => out.extend_from_slice(b" any"),
        Reason::Kids => out.extend_from_slice(b" kids"),
        Reason::Rule(rule) => push_number(out, rule),
    }
}
