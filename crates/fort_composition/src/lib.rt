//! Anchored ground tree transducers: the root steps of a system, the inverse, the union and the composition.
#![tactic(auto)]

mod composing;

pub use composing::compose;
