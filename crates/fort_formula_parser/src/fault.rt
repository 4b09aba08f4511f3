//! Why a text is no formula.

ghost use Rattle.std.specs.Prelude.{◌≡◌};
ghost use Rattle.fort_formula_parser.specs.declared.fault.FFault.TheVariants.{Memory};

use std::alloc::{AllocError, AllocFailed};

/// Why there is no formula. Offsets count bytes from 0.
#[derive(Clone, Copy, Debug, PartialEq, Eq)]
pub enum FFault {
    /// There is not enough memory.
    Memory,
    /// The first byte that is no blank and with which no token begins.
    BadByte(usize),
    /// More than 1,000 tokens.
    TooLong,
    /// The first `(` that is the 201st open.
    TooDeep(usize),
    /// The tokens are no formula; the first one with which they can't begin one any more begins here,
    /// or the text ends here where all of them can.
    Syntax(usize),
}

impl From<AllocError> for FFault {
    ghost from_gives = { λ _ e. e ≡ Memory };

    fn from(_e: AllocError) -> FFault {
        FFault::Memory
    }
}

impl<T: Drop> From<AllocFailed<T>> for FFault {
    ghost from_gives = { λ _ e. e ≡ Memory };

    fn from(_e: AllocFailed<T>) -> FFault {
        FFault::Memory
    }
}
