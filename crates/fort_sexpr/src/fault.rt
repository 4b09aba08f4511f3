//! Why a text has no forms.
ghost use Rattle.std.specs.Prelude.{◌≡◌};
ghost use Rattle.fort_sexpr.specs.declared.fault.SFault.TheVariants.{Memory};

use std::alloc::{AllocError, AllocFailed};

/// Why a text has no forms, with the offset of the fault.
#[derive(Clone, Copy, Debug, PartialEq, Eq)]
pub enum SFault {
    /// There is not enough memory.
    Memory,
    /// A byte that may not stand outside comments.
    BadByte(usize),
    /// A closing parenthesis where no list is open.
    ExtraClose(usize),
    /// The text ends, and the list of the parenthesis here is open.
    Unclosed(usize),
    /// A parenthesis that opens one list too many.
    TooDeep(usize),
}

impl From<AllocError> for SFault {
    ghost from_gives = { λ _ e. e ≡ Memory };

    fn from(_e: AllocError) -> SFault {
        SFault::Memory
    }
}

impl<T: Drop> From<AllocFailed<T>> for SFault {
    ghost from_gives = { λ _ e. e ≡ Memory };

    fn from(_e: AllocFailed<T>) -> SFault {
        SFault::Memory
    }
}
