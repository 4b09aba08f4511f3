//! A tree automaton as a list of moves.
use fort_terms::Sym;

/// From the states of its children, a node of this symbol gets the target as a state.
#[derive(Drop)]
pub struct Move {
    /// The symbol.
    pub sym: Sym,
    /// The states of the children, from left to right.
    pub kids: Vec<u32>,
    /// The state of the node.
    pub target: u32,
}

/// A tree automaton, whose states are numbered from 0.
#[derive(Drop)]
pub struct Nta {
    /// The number of states.
    pub states: u32,
    /// The state that takes every term, if there is one.
    pub any: Option<u32>,
    /// The moves.
    pub moves: Vec<Move>,
    /// The silent moves, from the first state to the second.
    pub silent: Vec<(u32, u32)>,
}
