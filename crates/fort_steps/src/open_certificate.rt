//! Certificates of open formulas.
use crate::step::Step;

/// What a certificate is to show.
#[derive(Clone, Copy, PartialEq, Eq, Debug)]
pub enum Claim {
    /// The terms of its last node satisfy the formula.
    Found,
    /// No terms do.
    Empty,
}

/// A symbol for each column, or none where the column is absent, over the numbers of earlier nodes.
#[derive(Debug, PartialEq, Eq, Drop)]
pub struct Node {
    pub syms: Vec<Option<u32>>,
    pub kids: Vec<u32>,
}

/// A claim, the steps that make the formula's table, and the nodes of the terms that are found.
#[derive(Debug, PartialEq, Eq, Drop)]
pub struct OpenCertificate {
    /// The number of the header's form.
    pub first: u32,
    pub claim: Claim,
    pub steps: Vec<Step>,
    pub nodes: Vec<Node>,
}
