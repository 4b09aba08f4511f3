//! What the labels of a projection, and of "infinitely many", ask of a child's label, by the classes of the body's states.
#![tactic(auto)]

mod many_keys;
mod members;
mod parts;
mod places;
mod projection_keys;

pub use many_keys::ManyKeys;
pub use projection_keys::ProjectionKeys;
