//! The parts of a core formula.

ghost use Rattle.std.specs.Prelude.{◌≡◌, List, [], ◌∷◌, ◌++◌, map, IfOk, OnOk};
ghost use Rattle.fort_theory.specs.Cores as theory;
ghost use Rattle.fort_theory.specs.EachOnce.{AreEachOnce};
ghost use Rattle.fort_theory.specs.Parts.{postorder};
ghost use Rattle.fort_theory.specs.PartLists.{AreParts};
ghost use Rattle.fort_formulas.specs.CoreView.{as_core};

use crate::core_formula::Core;
use indexmap::IndexSet;
use std::alloc::{AllocError, Global};

/// The different subformulas, operands before their formula, in the order of their first places.
/// It fails for want of memory alone. They are told apart by their keys: the time is that of all subformulas' lengths.
pub fn parts(alloc: Global, core: &Core) -> Result<Vec<Core>, AllocError>
    ensures { IfOk result (λ ps. AreParts (as_core core.now) (map as_core ps.items)) }
{
    let mut found = IndexSet::new(alloc);
    push_parts(alloc, core, &mut found)?;
    listed(alloc, found)
}

/// The formulas in their order.
fn listed(alloc: Global, found: IndexSet<Core>) -> Result<Vec<Core>, AllocError>
    ensures { IfOk result (λ formulas. formulas.items ≡ found.keys) }
{
    found.into_iter().collect(alloc)
}

fn push_parts(alloc: Global, core: &Core, found: &mut IndexSet<Core>) -> Result<(), AllocError>
    ensures { OnOk result ((before : List theory.Core)
        → AreEachOnce before (map as_core found.old.keys)
        → AreEachOnce (before ++ postorder (as_core core.now)) (map as_core found.new.keys)) }
{
    match core {
        Core::True
        | Core::Atom(_, _, _, _)
        | Core::Rel(_, _, _, _, _)
        | Core::Nf(_, _)
        | Core::Is(_, _) => push_new(alloc, core, found),
        Core::Not(f) | Core::Exists(_, f) | Core::Infinite(_, f) => {
            push_parts(alloc, f.as_core(), found)?;
            push_new(alloc, core, found)
        }
        Core::And(f, g) | Core::Or(f, g) | Core::Iff(f, g) => {
            push_parts(alloc, f.as_core(), found)?;
            push_parts(alloc, g.as_core(), found)?;
            push_new(alloc, core, found)
        }
    }
}

/// Puts a copy of the formula behind the others, unless it is among them.
fn push_new(alloc: Global, core: &Core, found: &mut IndexSet<Core>) -> Result<(), AllocError>
    ensures { OnOk result ((before : List theory.Core)
        → AreEachOnce before (map as_core found.old.keys)
        → AreEachOnce (before ++ as_core core.now ∷ []) (map as_core found.new.keys)) }
{
    if !found.contains(core) {
        let _added = found.insert(core.copy(alloc)?)?;
    }
    Ok(())
}
