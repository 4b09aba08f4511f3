//! Decides core formulas over a system, with the steps of a certificate.
#![tactic(auto)]

mod answers;
mod closures;
mod counts;
mod decide;
mod recorder;

pub use decide::{OpenRecorded, Recorded, decide_with_steps, table_with_steps};
