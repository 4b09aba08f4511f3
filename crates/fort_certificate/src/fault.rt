//! Why forms are no certificate.
ghost use Rattle.std.specs.Prelude.{◌≡◌};
ghost use Rattle.fort_certificate.specs.declared.fault.CertificateFault.TheVariants.{Memory};

use std::alloc::AllocError;

/// Why forms are no certificate; the number is the form's.
#[derive(Clone, Copy, Debug, PartialEq, Eq)]
pub enum CertificateFault {
    /// There is not enough memory.
    Memory,
    /// A form of the wrong shape, or none where the header should be.
    BadForm(u32),
    /// A word in a number's place that is no number.
    BadNumber(u32),
    /// The version is a number, but none of the versions of the problem's certificates.
    Version(u32),
}

impl From<AllocError> for CertificateFault {
    ghost from_gives = { λ _ e. e ≡ Memory };

    fn from(_e: AllocError) -> CertificateFault {
        CertificateFault::Memory
    }
}
