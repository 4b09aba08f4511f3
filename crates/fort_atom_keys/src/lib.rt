//! What the labels of an atom ask of the labels of the children.
#![tactic(auto)]

mod keys;
mod masks;

pub use keys::AtomKeys;
