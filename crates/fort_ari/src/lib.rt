//! Reads a problem, which is a rewrite system, from the forms of a text.
#![tactic(auto)]

mod declaration;
mod fault;
mod form;
mod ground;
mod names;
mod problem;
mod rule;
mod side;
mod word;

pub use fault::ProblemFault;
pub use ground::read_ground;
pub use problem::{Problem, read_problem};
