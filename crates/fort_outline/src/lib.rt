//! The parts of a core formula by numbers: roots with the numbers of their operands, columns and places among them, last uses, and the
//! closures that they ask for.
#![tactic(auto)]

mod asks;
mod columns;
mod leaf;
mod numbers;
mod outline;
mod places;
mod root;
mod uses;

pub use asks::is_closure_asked;
pub use leaf::Leaf;
pub use outline::Outline;
pub use places::{column_of, places_among};
pub use root::Root;
