//! The steps of a certificate.
use fort_findings::{ClosureEntry, Count, Which};

/// A step of a certificate. The numbers that come first are those of parts, but the index of a closure.
#[derive(Debug, PartialEq, Eq, Drop)]
pub enum Step {
    /// The pairs of a closure of the system of an index.
    Closure(Which, u32, Vec<ClosureEntry>),
    /// The targets of a part's entries, in their order.
    Part(u32, Vec<u32>),
    /// The classes of the states of the part's table, in the order of the states.
    Merge(u32, Vec<u32>),
    /// The counts of the pure states of the part's body, in their order.
    Counts(u32, Vec<Count>),
    /// The value of a part without columns.
    Value(u32, bool),
}
