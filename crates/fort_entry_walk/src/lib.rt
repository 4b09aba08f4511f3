//! The entries over some states, one after another in their order.
#![tactic(auto)]

mod candidates;
mod digit_row;
mod entries;
mod kid_lists;
mod kid_row;
mod walk;

pub use entries::Entries;
pub use walk::Walk;
