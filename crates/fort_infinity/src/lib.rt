//! How many terms give each state, and the labels of "infinitely many".
#![tactic(auto)]

mod children;
mod counts;
mod lists;
pub mod local;
mod many;
mod many_choices;
mod many_entry;
mod ranks;

pub use counts::pure_counts;
pub use many::Many;
