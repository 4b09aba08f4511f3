//! The first form of a certificate that fails.
ghost use Rattle.std.specs.Prelude.{◌≡◌, ◌+◌, ◌<◌, ◌^◌};

use fort_check_steps::{Failure, Reason};

/// The first form that fails, where it fails, and why.
#[derive(Clone, Copy, Debug, PartialEq, Eq)]
pub struct Rejected {
    pub form: u32,
    pub place: u64,
    pub reason: Reason,
}

/// A step that fails, by the number of its form, where the form before the first step has this number.
pub(crate) fn rejected_at(first: u32, place: usize, failure: Failure) -> Rejected
    requires { first + 1 + place < 2 ^ 32 }
    ensures { result ≡ record {
      form = first + 1 + place;
      place = failure.place;
      reason = failure.reason;
    } }
{
    Rejected {
        form: first + 1 + place as u32,
        place: failure.place,
        reason: failure.reason,
    }
}
