//! Why a certificate of an open formula isn't in order.
ghost use Rattle.std.specs.Prelude.{◌≡◌, Err};
ghost use Rattle.fort_certificate_theory.specs.Outcomes.{Verdict};
ghost use Rattle.fort_certificate_theory.specs.OpenChecked as definitions;
ghost use Rattle.fort_open_checker.specs.OpenOutcomeView.{as_outcome};

use fort_cert_checker::Rejected;
use fort_check_steps::Reason;
use fort_steps::OpenCertificate;

/// The first form that fails.
#[derive(Clone, Copy, Debug, PartialEq, Eq)]
pub enum Unconfirmed {
    /// A step, a node that isn't due, or the claim.
    Rejected(Rejected),
    /// A node that is no entry over the nodes before it.
    NoEntry { form: u32 },
}

/// The claim isn't what the table tells.
pub(crate) fn other_claim(certificate: &OpenCertificate) -> Unconfirmed
    ensures { as_outcome (Err result) ≡ definitions.Rejected certificate.now.first 0 Verdict }
{
    Unconfirmed::Rejected(Rejected {
        form: certificate.first,
        place: 0,
        reason: Reason::Verdict,
    })
}
