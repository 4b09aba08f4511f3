//! The kinds of core formulas.

/// The root of a core formula.
#[derive(Clone, Copy, Debug, PartialEq, Eq)]
pub enum Kind {
    True,
    Eq,
    Root,
    Below,
    Step,
    Par,
    Plus,
    Star,
    Conv,
    Rex,
    Nf,
    Is,
    Not,
    And,
    Or,
    Iff,
    Exists,
    Infinite,
}
