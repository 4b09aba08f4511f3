//! The entries of a closure and their reasons.

/// Why a pair of states is in the closure. The numbers are places in the lists of right and of left
/// moves, of right or of left silent moves, and of pairs.
#[derive(Clone, Copy)]
pub enum Why {
    /// One of the two states takes every term.
    Any,
    /// A right and a left move of one symbol, from states that are listed one by one.
    Kids(u32, u32),
    /// A silent move to the right state, from one that is listed with the left state.
    SilentRight(u64),
    /// A silent move to the left state, from one that is listed with the right state.
    SilentLeft(u64),
    /// A pair of the transducer, through which the states are listed.
    Pair(u32),
}

/// A pair of states: some term of the right state p reduces to some term of the left state q.
#[derive(Clone, Copy)]
pub struct Entry {
    /// The right state.
    pub p: u32,
    /// The left state.
    pub q: u32,
    /// The reason.
    pub why: Why,
}

/// The closure of a transducer.
#[derive(Drop)]
pub struct Closed {
    /// The entries, each of which follows from earlier ones.
    pub entries: Vec<Entry>,
}
