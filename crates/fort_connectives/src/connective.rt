//! Connectives.
ghost use Rattle.std.specs.Prelude.{◌≡◌};
ghost use Rattle.fort_tables.specs.Products.{connected};
ghost use Rattle.fort_connectives.specs.ConnectiveView.{connective_of};

/// A connective of two relations.
#[derive(Clone, Copy, Debug, PartialEq, Eq, Hash)]
pub enum Op {
    And,
    Or,
    Iff,
}

impl Op {
    /// What it makes of two truths.
    pub fn connect(self, first: bool, second: bool) -> bool
        ensures { result ≡ connected (connective_of self) first second }
    {
        match self {
            Op::And => first && second,
            Op::Or => first || second,
            Op::Iff => first == second,
        }
    }
}
