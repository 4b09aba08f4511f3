//! The leading entries over some states, one after another in their order.
#![tactic(auto)]

mod choices;
mod leader_lists;
mod leading;
mod picks;
mod symbol_leaders;

pub use choices::{Choice, first};
pub use leader_lists::LeaderLists;
pub use leading::LeadingWalk;
pub use symbol_leaders::SymbolLeaders;
