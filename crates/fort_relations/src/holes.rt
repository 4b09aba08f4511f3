//! The kinds of contexts with holes.

/// How many holes a context has.
#[derive(Clone, Copy, Debug, PartialEq, Eq, PartialOrd, Ord, Hash)]
pub enum Holes {
    /// One.
    One,
    /// At least one.
    Some,
    /// Any number.
    Any,
}

/// Where a context has its holes.
#[derive(Clone, Copy, Debug, PartialEq, Eq, PartialOrd, Ord, Hash)]
pub enum Place {
    /// At the root alone: the context is a hole, or has none.
    Root,
    /// Below the root: the context isn't a hole.
    Below,
    /// Anywhere.
    All,
}
