//! Counts of states.
ghost use Rattle.std.specs.Prelude.{◌≡◌};
ghost use Rattle.fort_tables.specs.Counts.{is_infinite as is_infinite_lem};
ghost use Rattle.fort_findings.specs.FindingView.{as_count};

/// How many terms of one column alone give a state.
#[derive(Clone, Copy, PartialEq, Eq, Debug)]
pub enum Count {
    /// Finitely many; the greatest height of one.
    Finite(u32),
    /// Infinitely many; the least child of the state of which that is so.
    Infinite(u32),
}

impl Count {
    pub fn is_infinite(&self) -> bool
        ensures { result ≡ is_infinite_lem (as_count self.now) }
    {
        match self {
            Count::Finite(_) => false,
            Count::Infinite(_) => true,
        }
    }
}
