//! What is given of a merge.
use fort_terms::Signature;

/// A table by its targets in the order of its entries, and a class for each of its states.
#[derive(Clone, Copy)]
pub struct GivenTable<'a> {
    pub signature: &'a Signature,
    pub columns: usize,
    pub presences: &'a [u16],
    pub finals: &'a [bool],
    pub targets: &'a [u32],
    pub classes: &'a [u32],
}
