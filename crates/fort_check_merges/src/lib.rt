//! Checks the merge of a part's table, by the definition of one in order: its count, the class of each state, and the class of each
//! entry's target. It takes no memory.
#![tactic(auto)]

mod check;
mod classes;
mod entries;
mod given;
mod kept;

pub use check::check_merge;
