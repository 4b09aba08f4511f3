//! The table of all optional tuples by their labels.
#![tactic(auto)]

mod by_keys;
mod classed;
mod found;
mod labels;
mod leading;
mod long_labels;
mod short_labels;
mod table;
mod whole;

pub use by_keys::explore_by_keys;
pub use table::{ExploreFault, Explored, explore, explore_counted, explore_listed};
