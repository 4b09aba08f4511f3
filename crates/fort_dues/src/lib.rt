//! The steps of a certificate that are due for a formula, by its outline.
#![tactic(auto)]

mod dues;

pub use dues::{DueStep, steps_due};
