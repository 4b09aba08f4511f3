//! What parsing gives.

use fort_formulas::Formula;

/// A formula and the ground terms that are written in its text.
#[derive(Drop)]
pub struct Parsed {
    pub formula: Formula,
    /// In the order of the text; the formula names them by their places here.
    pub grounds: Vec<Ground>,
}

/// A ground term that is written in the text of a formula.
#[derive(Drop)]
pub struct Ground {
    /// The offset of its brace.
    pub at: usize,
    /// What stands between its braces.
    pub text: Vec<u8>,
}
