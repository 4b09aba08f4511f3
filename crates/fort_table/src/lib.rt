//! What a table is, and lists of the tuples of its states.
#![tactic(auto)]

mod dag;
mod entry_list;
mod table;

pub use dag::Dag;
pub use entry_list::{EntryList, EntrySpan};
pub use table::Table;
