//! Products of tables.
#![tactic(auto)]

mod held;
mod joint;
mod listed;
pub mod local;
mod operand;
mod product;
mod words;

pub use operand::Operand;
pub use product::Both;
