//! Finished tables with the classes of their states, by their targets.
#![tactic(auto)]

mod classed_table;
mod columns;
mod counted;
mod leaders;
mod list_set;
mod place_views;
mod table_views;

pub use classed_table::ClassedTable;
