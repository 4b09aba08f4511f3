//! Tree automata: the states of a term, which states take a term, the automaton of a list of patterns.
#![tactic(auto)]

mod copies;
mod flags;
mod inhabited;
mod nta;
mod of_patterns;
mod states_of;
mod trim;

pub use nta::{Move, Nta};
pub use of_patterns::{pattern_automaton, place};
