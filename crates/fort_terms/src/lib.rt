//! Signatures, patterns, sides of rules, and systems of rules.
#![tactic(auto)]

mod numbers;
mod occurrences;
pub mod pattern;
pub mod side;
pub mod signature;
pub mod sym;
pub mod system;
pub mod term;

pub use numbers::has_numbers;
pub use pattern::{Pattern, Patterns};
pub use side::{Side, Sides};
pub use signature::{AddFault, Signature};
pub use sym::Sym;
pub use system::{RuleFault, System};
pub use term::Term;
