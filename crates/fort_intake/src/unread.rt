//! Why a text that comes from a source has no forms.
ghost use Rattle.std.specs.Prelude.{◌≡◌};
ghost use Rattle.fort_intake.specs.Unread.{unread_for};
ghost use Rattle.fort_intake.specs.declared.unread.Unread.TheVariants.{Fault};

use fort_io::Failed;
use fort_sexpr::SFault;

/// Why there are no forms of what a source gives.
#[derive(Clone, Copy, Debug, PartialEq, Eq)]
pub enum Unread {
    /// Want of memory.
    Memory,
    /// A read failed.
    Fault,
    /// More bytes came than the limit.
    TooLong,
    /// The first fault of the text, which came whole.
    Text(SFault),
}

impl From<Failed> for Unread {
    ghost from_gives = { λ _ u. u ≡ Fault };

    fn from(_e: Failed) -> Unread {
        Unread::Fault
    }
}

impl From<SFault> for Unread {
    ghost from_gives = { λ fault u. u ≡ unread_for fault };

    fn from(fault: SFault) -> Unread {
        match fault {
            SFault::Memory => Unread::Memory,
            _ => Unread::Text(fault),
        }
    }
}
