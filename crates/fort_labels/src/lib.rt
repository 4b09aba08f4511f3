//! Labels of optional tuples: lists of them, and what gives an entry its label.
#![tactic(auto)]

mod bits;
mod by_rule;
mod labeller;
mod rows;
mod rule;

pub use bits::{has_bit, set_bit};
pub use by_rule::ByRule;
pub use labeller::Labeller;
pub use rows::Rows;
pub use rule::LocalRule;
