//! Checks certificates, by the definition of one in order.
#![tactic(auto)]

mod about;
mod checker;
mod making;
mod numbers;
mod one_step;
mod part_tables;
mod past;
mod plan;
mod rejected;
mod step_checker;
mod value;

pub use checker::Checker;
pub use past::accepts_some;
pub use rejected::Rejected;
pub use step_checker::{StepChecker, WholeRoom};
