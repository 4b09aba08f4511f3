//! Why forms are no problem.
ghost use Rattle.std.specs.Prelude.{◌≡◌};
ghost use Rattle.fort_ari.specs.declared.fault.ProblemFault.TheVariants.{Memory};

use std::alloc::AllocError;

/// Why forms are no problem; the number is the form's.
#[derive(Debug, PartialEq, Eq, Drop)]
pub enum ProblemFault {
    /// There is not enough memory.
    Memory,
    /// There is no first form, or it is neither `(format TRS)` nor that with `:number` and 1 to 9.
    NoFormat,
    /// A form of the wrong shape.
    BadForm(u32),
    /// A word that is no name.
    BadName(u32),
    /// A word that is no arity.
    BadArity(u32),
    /// A name that is declared already.
    Duplicate(u32),
    TooManyFunctions,
    TooManyRules,
    /// No function without arguments is declared.
    NoConstant,
    /// A function with another number of arguments than its arity.
    WrongCount(u32),
    /// A variable with arguments.
    VariableApplied(u32),
    /// The left side has this variable twice.
    LeftRepeats(u32, Vec<u8>),
    /// The right side has this variable twice.
    RightRepeats(u32, Vec<u8>),
    /// Both sides have this variable.
    Shares(u32, Vec<u8>),
}

impl From<AllocError> for ProblemFault {
    ghost from_gives = { λ _ e. e ≡ Memory };

    fn from(_e: AllocError) -> ProblemFault {
        ProblemFault::Memory
    }
}
