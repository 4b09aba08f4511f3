//! Operations on RR_n relations, the relations of n terms that tree automata recognise: products, projections, complements,
//! exchanges and cylinders.
#![tactic(auto)]

mod negation;
mod tables;

pub use negation::negate;
pub use tables::{permute, widen};
