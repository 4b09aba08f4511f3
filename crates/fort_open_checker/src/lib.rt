//! Checks certificates of open formulas, by the definition of one in order.
#![tactic(auto)]

mod checker;
mod dag;
mod entry;
mod found;
mod nodes;
mod outcome;

pub use checker::OpenChecker;
pub use dag::nodes_dag;
pub use outcome::Unconfirmed;
