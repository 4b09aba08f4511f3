//! A table's targets by the classes of its states, from the targets of its leading entries.
#![tactic(auto)]

mod kids;
mod listing;
mod place_leaders;
mod symbols;
mod taken;
mod view_numbers;

pub use listing::class_list;
