//! The relations that atoms of formulas speak of.
#![tactic(auto)]

pub mod holes;
pub mod relation;
pub mod rex;

pub use holes::{Holes, Place};
pub use relation::Rel;
pub use rex::{Rex, RexArm};
