//! Tables by the targets of their entries.
#![tactic(auto)]

mod classed;
mod dta;
mod maker;
mod states;
mod steps;

pub use dta::Dta;
pub use maker::Maker;
pub use steps::Steps;
