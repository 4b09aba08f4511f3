//! Lists of targets by classes, in which classes that have the same targets are one.
#![tactic(auto)]

mod old_symbol;
mod parts;
mod picks;
mod places;
mod slices;
mod tight_views;
mod tighten;

pub use tighten::tightened;
