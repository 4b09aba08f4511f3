//! Formulas as users write them, and core formulas, which have numbers for variables and few
//! connectives and can be keys of maps and sets.
#![tactic(auto)]

mod abbreviations;
mod arguments;
mod columns;
pub mod core_formula;
mod fault;
mod indices;
mod kinds;
mod names;
mod numbers;
mod roots;
mod scope;
mod subformulas;
pub mod surface;
mod terminations;
mod translation;

pub use columns::free;
pub use core_formula::{Arm, Core};
pub use fault::CoreFault;
pub use indices::index_above;
pub use kinds::Kind;
pub use names::free_names;
pub use roots::kind;
pub use subformulas::parts;
pub use surface::{Arg, Formula, Macro, Name, Operand, SurfaceRel};
pub use terminations::not_right_ground;
pub use translation::{to_core, too_wide};
