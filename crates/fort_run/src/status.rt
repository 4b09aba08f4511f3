//! Statuses, by name.
ghost use Rattle.std.specs.Prelude.{◌≡◌};
ghost use Rattle.fort_run.specs.StatusView.{code_of};

/// How a run ended.
#[derive(Clone, Copy, Debug, PartialEq, Eq)]
pub enum Status {
    /// YES, WITNESS, solutions, SYSTEM, a certificate, a sample or CERTIFIED.
    Positive,
    /// NO, NONE, no solutions, NO SYSTEM or REJECTED.
    Negative,
    /// The usage text.
    Usage,
    /// A formula, an input or a family was refused.
    Refused,
    /// Some part of the formula is over the cap.
    Limited,
    OutOfMemory,
    ReadFailed,
    WriteFailed,
}

impl Status {
    /// The number with which the program ends.
    pub fn code(self) -> u8
        ensures { result ≡ code_of self }
    {
        match self {
            Status::Positive => 0,
            Status::Negative => 1,
            Status::Usage => 2,
            Status::Refused => 3,
            Status::Limited => 4,
            Status::OutOfMemory => 5,
            Status::ReadFailed => 6,
            Status::WriteFailed => 7,
        }
    }
}
