//! Whether some part of a formula asks for a closure.
ghost use Rattle.std.specs.Prelude.{◌≡◌, List};
ghost use Rattle.std.specs.List.{list_any};
ghost use Rattle.fort_theory.specs.Cores as theory;
ghost use Rattle.fort_alike.specs.ListedClosures as definitions;
ghost use Rattle.fort_relations.specs.RelView.{as_rel};
ghost use Rattle.fort_findings.specs.FindingView.{as_which};
ghost use Rattle.fort_outline.specs.Roots.{root_core, cores_of};

use crate::root::Root;
use fort_findings::Which;
use fort_relations::Rel;

/// Whether a relation is told by a closure.
fn reads(which: Which, rel: Rel) -> bool
    ensures { result ≡ definitions.reads (as_which which) (as_rel rel) }
{
    match Which::of(rel) {
        Some(own) => own == which,
        None => false,
    }
}

/// Whether a part asks for the closure of an index.
fn asks(which: Which, index: u32, root: &Root) -> bool
    ensures { (parts : List theory.Core) → result ≡ definitions.asks (as_which which) index
        (root_core parts root.now) }
{
    match root.relation() {
        Some((rel, own)) => reads(which, rel) && own == index,
        None => false,
    }
}

/// Whether some part asks for the closure of an index, in a formula whose parts have these roots.
pub fn is_closure_asked(which: Which, index: u32, roots: &[Root]) -> bool
    ensures { result ≡ list_any (definitions.asks (as_which which) index) (cores_of roots.now) }
{
    for root in roots {
        if asks(which, index, root) {
            return true;
        }
    }
    false
}
