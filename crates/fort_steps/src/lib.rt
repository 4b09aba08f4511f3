//! A certificate and its steps, of a closed or an open formula, as plain data.
#![tactic(auto)]

mod certificate;
mod open_certificate;
mod step;

pub use certificate::Certificate;
pub use open_certificate::{Claim, Node, OpenCertificate};
pub use step::Step;
