//! Closures: pairs of patterns, each with a reason.
ghost use Rattle.std.specs.Prelude.{◌≡◌, true, false, IfSome, IfNone};
ghost use Rattle.fort_alike.specs.ListedClosures as definitions;
ghost use Rattle.fort_alike.specs.ListedClosures.{reads};
ghost use Rattle.fort_relations.specs.RelView.{as_rel};
ghost use Rattle.fort_findings.specs.FindingView.{as_which};

use fort_relations::Rel;

/// Which closure: of the rules as they are, or with each rule also reversed.
#[derive(Clone, Copy, PartialEq, Eq, Debug)]
pub enum Which {
    Star,
    Conv,
}

impl Which {
    /// The closure by which a relation is told; none for a relation that reads none.
    pub fn of(rel: Rel) -> Option<Which>
        ensures some { IfSome result (λ which. reads (as_which which) (as_rel rel) ≡ true) }
        ensures none { IfNone result ((which : definitions.Which)
            → reads which (as_rel rel) ≡ false) }
    {
        match rel {
            Rel::Star | Rel::Plus => Some(Which::Star),
            Rel::Conv => Some(Which::Conv),
            Rel::Eq | Rel::Root | Rel::Below | Rel::Step | Rel::Par => None,
        }
    }
}

/// Why a pair of patterns is in a closure.
#[derive(Clone, Copy, PartialEq, Eq, Debug)]
pub enum Reason {
    /// One of them is the pattern of all terms.
    Any,
    /// By the pairs of their children.
    Kids,
    /// By the rule of this number.
    Rule(u32),
}

/// A pair of a closure.
#[derive(Clone, Copy, PartialEq, Eq, Debug)]
pub struct ClosureEntry {
    /// The number of the right pattern.
    pub p: u32,
    /// The number of the left pattern.
    pub q: u32,
    pub why: Reason,
}
