//! The closure of an anchored ground tree transducer: the pairs of states of which one reaches the other, each with its reason.
#![tactic(auto)]

mod added;
mod agenda;
mod closed;
mod entry;
mod grid;
mod groups;
mod links;
mod marks;
mod passes;
mod reasons;

pub use added::{backward_moves, onward_moves};
pub use closed::closed_agtt;
pub use entry::{Closed, Entry, Why};
pub use passes::close;
