//! Anchored ground tree transducers: the root steps of a system, the inverse of a transducer, and the union of two.
#![tactic(auto)]

mod agtt;
mod beside;
mod exchange;
mod rules;
mod unions;

pub use agtt::Agtt;
pub use beside::{push_pairs, side_by_side};
pub use exchange::{exchanged, inverse};
pub use rules::root_steps;
pub use unions::union;
