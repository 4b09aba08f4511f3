//! What is found on the way to an answer, as plain data: counts of states, and closures.
#![tactic(auto)]

mod closure;
mod count;

pub use closure::{ClosureEntry, Reason, Which};
pub use count::Count;
