//! The numbers of parts.
ghost use Rattle.std.specs.Prelude.{◌<◌, ◌≤◌, List, [], ◌∷◌, ◌++◌, length, IfOk, OnOk};
ghost use Rattle.fort_theory.specs.Cores as theory;
ghost use Rattle.fort_theory.specs.Parts.{postorder};
ghost use Rattle.fort_formulas.specs.CoreView.{as_core};
ghost use Rattle.fort_outline.specs.LeafView.{as_atom};
ghost use Rattle.fort_outline.specs.Roots.{root_core, cores_of, HasOperandsBelow};
ghost use Rattle.fort_outline.specs.Numbered.{AreNumbered, IsNumbered};

use crate::leaf::Leaf;
use crate::root::Root;
use fort_connectives::Op;
use fort_formulas::Core;
use indexmap::IndexSet;
use std::alloc::{AllocError, Global};

/// The number of a part with this root, which is a new one where no part has it yet.
fn number_of(roots: &mut IndexSet<Root>, root: Root) -> Result<usize, AllocError>
    requires { HasOperandsBelow (length roots.old.keys) root }
    ensures within { IfOk result (λ n. n < length roots.new.keys) }
    ensures grows { OnOk result (length roots.old.keys ≤ length roots.new.keys) }
    ensures numbered { IfOk result (λ n. (before : List theory.Core)
        → AreNumbered before roots.old.keys
        → IsNumbered (before ++ root_core (cores_of roots.old.keys) root ∷ []) roots.old.keys
        roots.new.keys (root_core (cores_of roots.old.keys) root) n) }
{
    let (number, _) = roots.insert_full(root)?;
    Ok(number)
}

/// The number of an atom.
fn number_leaf(roots: &mut IndexSet<Root>, leaf: Leaf) -> Result<usize, AllocError>
    ensures within { IfOk result (λ n. n < length roots.new.keys) }
    ensures grows { OnOk result (length roots.old.keys ≤ length roots.new.keys) }
    ensures numbered { IfOk result (λ n. (before : List theory.Core)
        → AreNumbered before roots.old.keys
        → IsNumbered (before ++ theory.Leaf (as_atom leaf) ∷ []) roots.old.keys roots.new.keys
        (theory.Leaf (as_atom leaf)) n) }
{
    number_of(roots, Root::Leaf(leaf))
}

/// The number of a formula, whose subformulas are numbered before it.
pub(crate) fn number_core(
    alloc: Global,
    core: &Core,
    roots: &mut IndexSet<Root>,
) -> Result<usize, AllocError>
    ensures within { IfOk result (λ n. n < length roots.new.keys) }
    ensures grows { OnOk result (length roots.old.keys ≤ length roots.new.keys) }
    ensures numbered { IfOk result (λ n. (before : List theory.Core)
        → AreNumbered before roots.old.keys
        → IsNumbered (before ++ postorder (as_core core.now)) roots.old.keys roots.new.keys
        (as_core core.now) n) }
{
    match core {
        Core::True => number_of(roots, Root::True),
        Core::Atom(rel, index, x, y) => number_leaf(roots, Leaf::Related(*rel, *index, *x, *y)),
        Core::Rel(rex, holes, place, x, y) => {
            let rex = rex.copy(alloc)?;
            number_leaf(roots, Leaf::InContext(rex, *holes, *place, *x, *y))
        }
        Core::Nf(index, x) => number_leaf(roots, Leaf::Normal(*index, *x)),
        Core::Is(x, term) => number_leaf(roots, Leaf::IsTerm(*x, term.copy(alloc)?)),
        Core::Not(f) => {
            let f = number_core(alloc, f.as_core(), roots)?;
            number_of(roots, Root::Not(f))
        }
        Core::And(f, g) => {
            let f = number_core(alloc, f.as_core(), roots)?;
            let g = number_core(alloc, g.as_core(), roots)?;
            number_of(roots, Root::Binary(Op::And, f, g))
        }
        Core::Or(f, g) => {
            let f = number_core(alloc, f.as_core(), roots)?;
            let g = number_core(alloc, g.as_core(), roots)?;
            number_of(roots, Root::Binary(Op::Or, f, g))
        }
        Core::Iff(f, g) => {
            let f = number_core(alloc, f.as_core(), roots)?;
            let g = number_core(alloc, g.as_core(), roots)?;
            number_of(roots, Root::Binary(Op::Iff, f, g))
        }
        Core::Exists(x, f) => {
            let f = number_core(alloc, f.as_core(), roots)?;
            number_of(roots, Root::Exists(*x, f))
        }
        Core::Infinite(x, f) => {
            let f = number_core(alloc, f.as_core(), roots)?;
            number_of(roots, Root::Infinite(*x, f))
        }
    }
}
