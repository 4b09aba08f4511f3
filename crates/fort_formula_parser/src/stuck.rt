//! Where no formula is read from tokens.

/// The place of the token with which no formula goes on, or of the end of tokens that end too early.
#[derive(Clone, Copy)]
pub(crate) struct Stuck(pub usize);
