//! Projections of tables.
#![tactic(auto)]

mod bits;
mod choices;
mod imaged;
mod images;
pub mod local;
mod marks;
mod project;
mod projecting;
mod projection;
mod pure;
mod scope;

pub use choices::{next_absent, next_in_set};
pub use project::Project;
pub use projecting::Projecting;
pub use pure::{next_pure, pure_states};
