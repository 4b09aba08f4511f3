//! What formulas are decided to.
ghost use Rattle.std.specs.Prelude.{◌≡◌, None};
ghost use Rattle.fort_engine.specs.declared.answer.Last.TheVariants.{Truth};

use fort_findings::Count;
use fort_formulas::Kind;
use fort_lockstep::Dta;
use fort_table::Dag;
use std::alloc::{AllocError, AllocFailed};

/// The answer to a formula, or to a part of one.
#[derive(Drop)]
pub enum Last {
    /// Without free variables, whether it is true.
    Truth(bool),
    /// The table over its columns, which are its free variables, ascending.
    Auto(Dta),
}

/// The answer to a part, and what was found with it.
#[derive(Drop)]
pub struct Decided {
    pub answer: Last,
    /// Where it is one of "infinitely many", the counts of the states of its body's table that have its variable alone.
    pub counts: Option<Vec<Count>>,
    /// Where they are asked for, the targets of its table as it was made, in the order of the entries; none of a negation's, which has
    /// its body's.
    pub targets: Option<Vec<u32>>,
    /// Where its table was reduced, the class of each state of the table as it was made; none of a negation's.
    pub classes: Option<Vec<u32>>,
}

impl Decided {
    /// A truth.
    pub(crate) fn truth(value: bool) -> Decided
        ensures answer { result.answer ≡ Truth value }
        ensures counts { result.counts ≡ None }
    {
        Decided {
            answer: Last::Truth(value),
            counts: None,
            targets: None,
            classes: None,
        }
    }
}

/// The answer to a formula.
#[derive(Drop)]
pub struct Trace {
    pub last: Last,
}

/// The first part with more labels than the cap.
#[derive(Drop)]
pub struct Limit {
    /// Its number.
    pub part: usize,
    pub kind: Kind,
    /// One more tuple than the cap, no two of them alike.
    pub tuples: Dag,
}

/// Why there is no answer.
#[derive(Drop)]
pub enum EngineFault {
    /// Want of memory.
    Memory,
    /// Some part has more labels than the cap.
    Over(Limit),
}

impl From<AllocError> for EngineFault {
    ghost use Rattle.std.specs.Prelude.{◌≡◌};
    ghost use Rattle.fort_engine.specs.declared.answer.EngineFault.TheVariants.{Memory};

    ghost from_gives = { λ _ r. r ≡ Memory };

    fn from(_e: AllocError) -> EngineFault {
        EngineFault::Memory
    }
}

impl<T: Drop> From<AllocFailed<T>> for EngineFault {
    ghost use Rattle.std.specs.Prelude.{◌≡◌};
    ghost use Rattle.fort_engine.specs.declared.answer.EngineFault.TheVariants.{Memory};

    ghost from_gives = { λ _ r. r ≡ Memory };

    fn from(_e: AllocFailed<T>) -> EngineFault {
        EngineFault::Memory
    }
}
