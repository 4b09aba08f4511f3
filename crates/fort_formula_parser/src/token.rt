//! Tokens, and tables of them.

use fort_formulas::{Macro, SurfaceRel};

/// A token of a formula.
#[derive(Clone, Copy)]
pub(crate) enum Token<'a> {
    Open,
    Close,
    Comma,
    Not,
    And,
    Or,
    Imp,
    Iff,
    Related(SurfaceRel),
    Begin,
    End,
    Index(u32),
    Exists,
    Forall,
    Infinite,
    True,
    False,
    Nf,
    Join,
    Has(Macro),
    Com,
    Sn,
    Variable(&'a [u8]),
    /// A ground term: its place among all that are written in the text, and what stands between its
    /// braces.
    Ground(usize, &'a [u8]),
}

/// A token of a text, and the offset of its first byte.
#[derive(Clone, Copy)]
pub(crate) struct Lexeme<'a> {
    pub at: usize,
    pub token: Token<'a>,
}

/// A token with which a text begins, and how many bytes it has.
#[derive(Clone, Copy)]
pub(crate) struct Spotted<'a> {
    pub token: Token<'a>,
    pub len: usize,
}

/// A text that is always this token.
#[derive(Clone, Copy)]
pub(crate) struct Spelling {
    pub text: &'static [u8],
    pub token: Token<'static>,
}
