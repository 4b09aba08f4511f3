//! Targets by the classes of children, in blocks: a target for each combination of classes.
#![tactic(auto)]

mod blocks;
mod combinations;
mod shape;

pub use blocks::Blocks;
pub use combinations::{first_classes, next_classes};
