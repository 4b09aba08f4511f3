//! The top call: words and bytes in, a line and a status out.
#![tactic(auto)]

mod ask;
mod checked;
mod confirmed;
mod limit;
mod outcome;
mod refused;
mod rejection;
mod reply;
mod sample;
mod solutions;
mod status;
mod synth;
mod top;
mod usage;
mod verdict;
mod witness;

pub use outcome::Outcome;
pub use top::run;
