//! The subterms of a term.
ghost use Rattle.std.specs.Prelude.{◌≡◌, ◌++◌, map, OnOk};
ghost use Rattle.fort_alike.specs.Subterms.{subterms};

use fort_terms::Term;
use std::alloc::AllocError;

/// Lists the subterms of a term, each as often as it stands there, a term before those of its
/// children.
pub(crate) fn push_subterms<'a>(
    term: &'a Term,
    listed: &mut Vec<&'a Term>,
) -> Result<(), AllocError>
    ensures { OnOk result (map (λ t. t.now) listed.new.items
        ≡ map (λ t. t.now) listed.old.items ++ subterms term.now) }
{
    listed.push(term)?;
    for kid in &term.kids {
        push_subterms(kid, listed)?;
    }
    Ok(())
}
