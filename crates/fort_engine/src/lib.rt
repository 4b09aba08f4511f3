//! Decides core formulas over a system, part by part.
#![tactic(auto)]

mod answer;
mod atoms;
mod by_keys;
mod classed;
mod closures;
mod counted;
mod decide;
mod explored;
mod joined;
mod operands;
mod options;
mod part;
mod projected;
mod recorder;

pub use answer::{Decided, EngineFault, Last, Limit, Trace};
pub use closures::{Closures, IndexClosure};
pub use decide::{decide_core, decide_outlined, decide_parts, decide_reduced, decide_with};
pub use options::Options;
pub use recorder::Recorder;
