//! The connectives of two truths.
#![tactic(auto)]

mod connective;

pub use connective::Op;
