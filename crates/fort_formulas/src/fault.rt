//! Why there is no core formula.

ghost use Rattle.std.specs.Prelude.{◌≡◌};
ghost use Rattle.fort_formulas.specs.declared.fault.CoreFault.TheVariants.{Memory};

use std::alloc::{AllocError, AllocFailed};

/// Why a formula has no core formula that can be decided.
#[derive(Clone, Copy, Debug, PartialEq, Eq)]
pub enum CoreFault {
    /// There is not enough memory.
    Memory,
    /// It sets aside more than 2^32 numbers; a property sets aside three, though some use two, and
    /// a ground term one.
    TooManyNumbers,
    /// Some part has more than 16 free variables, or an expression more than 32 root steps.
    TooWide,
}

impl From<AllocError> for CoreFault {
    ghost from_gives = { λ _ e. e ≡ Memory };

    fn from(_e: AllocError) -> CoreFault {
        CoreFault::Memory
    }
}

impl<T: Drop> From<AllocFailed<T>> for CoreFault {
    ghost from_gives = { λ _ e. e ≡ Memory };

    fn from(_e: AllocFailed<T>) -> CoreFault {
        CoreFault::Memory
    }
}
