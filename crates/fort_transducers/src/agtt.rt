//! A transducer as two automata and a list of pairs.
use fort_tree_automata::Nta;

/// A pair of tree automata with pairs of states.
#[derive(Drop)]
pub struct Agtt {
    /// The automaton of the terms on the left.
    pub left: Nta,
    /// The automaton of the terms on the right.
    pub right: Nta,
    /// The pairs of a left and a right state.
    pub pairs: Vec<(u32, u32)>,
}
