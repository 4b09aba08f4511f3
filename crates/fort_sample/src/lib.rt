//! The made problems: a system of each size, of which properties are decided without an input.
#![tactic(auto)]

mod rules;
mod signature;
mod system;

pub use system::made_system;
