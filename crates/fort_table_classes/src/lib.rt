//! What the classes of a table's states are.
#![tactic(auto)]

mod symbols;
mod table_classes;

pub use symbols::are_symbols;
pub use table_classes::TableClasses;
