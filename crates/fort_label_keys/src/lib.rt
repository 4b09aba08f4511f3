//! What the label of an entry asks of the labels of its children.
#![tactic(auto)]

mod keys;

pub use keys::LabelKeys;
