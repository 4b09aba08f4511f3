//! Tables in the making of which the leading entries alone are formed, and the laws by which such a table is made whole: another one
//! is given, entry by entry in order, the targets of the led entries.
#![tactic(auto)]

mod leading_maker;
mod leading_targets;

pub use leading_maker::LeadingMaker;
pub use leading_targets::LeadingTargets;
