//! Relation expressions: the transducer of an expression, and the labels of its atoms.
#![tactic(auto)]

mod compiling;
mod compiling_two;
mod facts;
mod labels;
mod leads;
mod side;

pub use compiling::compile;
pub use labels::RexLabels;
