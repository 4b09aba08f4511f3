//! What the labels of a product ask of a child's label, by the classes of its operands' states.
#![tactic(auto)]

mod operand_keys;
mod product_keys;

pub use product_keys::ProductKeys;
