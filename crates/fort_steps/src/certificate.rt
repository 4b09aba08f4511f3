//! Certificates.
use crate::step::Step;

/// A verdict, and the steps that are to show it.
#[derive(Debug, PartialEq, Eq, Drop)]
pub struct Certificate {
    /// The number of the header's form.
    pub first: u32,
    pub verdict: bool,
    pub steps: Vec<Step>,
}
