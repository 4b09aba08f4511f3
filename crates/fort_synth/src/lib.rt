//! The rules of a family, the first of its systems on which a test says yes, and the text of rules.
#![tactic(auto)]

mod candidate;
mod family_patterns;
mod family_rules;
mod search;
mod text;

pub use family_rules::{FamilyFault, family};
pub use search::{SynthFault, first_system};
pub use text::write_rules;
