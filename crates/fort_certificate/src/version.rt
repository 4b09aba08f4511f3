//! The versions of certificates.
ghost use Rattle.std.specs.Prelude.{◌≡◌};
ghost use Rattle.fort_certificate_theory.specs.CertificateForms.{version_for, version_word, tells_index as tells_index_lem, has_merges as has_merges_lem};
ghost use Rattle.fort_certificate.specs.VersionView.{as_version};

/// A version of certificates.
#[derive(Clone, Copy, Debug, PartialEq, Eq)]
pub enum Version {
    /// Of a problem of one system.
    OfOne,
    /// Of a problem of several systems.
    OfSeveral,
    /// With merges, of any problem.
    OfReduced,
}

impl Version {
    /// The version of certificates of a problem of so many systems, with merges or without.
    pub fn new(reduces: bool, systems: u32) -> Version
        ensures { as_version result ≡ version_for reduces systems }
    {
        if reduces {
            return Version::OfReduced;
        }
        if systems == 1 {
            Version::OfOne
        } else {
            Version::OfSeveral
        }
    }

    /// Whether a closure tells its index.
    pub(crate) fn tells_index(self) -> bool
        ensures { result ≡ tells_index_lem (as_version self) }
    {
        match self {
            Version::OfOne => false,
            Version::OfSeveral | Version::OfReduced => true,
        }
    }

    pub(crate) fn has_merges(self) -> bool
        ensures { result ≡ has_merges_lem (as_version self) }
    {
        match self {
            Version::OfOne | Version::OfSeveral => false,
            Version::OfReduced => true,
        }
    }

    /// The word of it in a header.
    pub(crate) fn word(self) -> &'static [u8]
        ensures { result.now ≡ version_word (as_version self) }
    {
        match self {
            Version::OfOne => b"1",
            Version::OfSeveral => b"2",
            Version::OfReduced => b"3",
        }
    }
}
