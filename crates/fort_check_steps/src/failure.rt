//! Why certificates are rejected.
ghost use Rattle.std.specs.Prelude.{◌≡◌, Err};

/// Why a form of a certificate is rejected.
#[derive(Clone, Copy, Debug, PartialEq, Eq)]
pub enum Reason {
    /// The form isn't the one that is due.
    Due,
    /// A number of a closure is none of a pattern or a rule.
    Range,
    /// A pair of a closure doesn't follow from earlier ones.
    Unfounded,
    /// A pair that follows isn't in the closure.
    Open,
    /// No state has this number.
    Target,
    /// The state has another label.
    Label,
    /// Targets are missing.
    Short,
    /// There are too many targets.
    Long,
    /// A state has no right class.
    Class,
    /// An entry leads elsewhere than with its children's first states.
    Split,
    /// Not as many marks as pure states, or not as many classes as states.
    Count,
    /// A child isn't finite with a smaller number.
    Rank,
    /// Nothing makes the state infinite.
    Cycle,
    /// The part has another value.
    Value,
    /// The formula has another value.
    Verdict,
}

/// Where a step fails first, and why.
#[derive(Clone, Copy, Debug, PartialEq, Eq)]
pub struct Failure {
    pub place: u64,
    pub reason: Reason,
}

/// The failure at a place.
pub fn failed(place: usize, reason: Reason) -> Result<(), Failure>
    ensures { result ≡ Err (record { place = place; reason = reason }) }
{
    Err(Failure {
        place: place as u64,
        reason,
    })
}
