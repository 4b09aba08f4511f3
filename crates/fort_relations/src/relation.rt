//! The relations of a step.

/// A relation between two terms.
#[derive(Clone, Copy, Debug, PartialEq, Eq, PartialOrd, Ord, Hash)]
pub enum Rel {
    /// They are equal.
    Eq,
    /// A step at the root.
    Root,
    /// A step below the root.
    Below,
    /// A step.
    Step,
    /// A parallel step.
    Par,
    /// At least one step.
    Plus,
    /// Any number of steps.
    Star,
    /// A conversion.
    Conv,
}
