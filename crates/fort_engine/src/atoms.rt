//! Atoms, by their labels.
ghost use Rattle.std.specs.Prelude.{ℕ, List, Contains};
ghost use Rattle.fort_theory.specs.Sides.{IsIndexOf, at_index};
ghost use Rattle.fort_theory.specs.Expressions.{HasManyRoots};
ghost use Rattle.fort_theory.specs.Cores as theory;
ghost use Rattle.fort_theory.specs.Parts.{HasManyRootsIn};
ghost use Rattle.fort_parts.specs.DecidedCores.{IsAtomOver, IsExpressionOver};
ghost use Rattle.fort_relations.specs.HolesView.{as_hole_number, as_hole_place};
ghost use Rattle.fort_relations.specs.RelView.{as_rel};
ghost use Rattle.fort_relations.specs.RexView.{as_expression};
ghost use Rattle.fort_outline.specs.LeafView.{as_atom};
ghost use Rattle.fort_context_closure.specs.ClosedAtoms.{ListsPasses};
ghost use Rattle.fort_context_closure.specs.AtomLabelsView.{rule_by, label_by, accepted_by};
ghost use Rattle.fort_engine.specs.Closures.{AreClosures};
ghost use Rattle.fort_engine.specs.Deciding.{IsDecision, AreLabelsFor};

use crate::answer::Decided;
use crate::by_keys::{explored_by_keys, is_branching};
use crate::closures::Closures;
use crate::explored::explored;
use crate::options::Options;
use fort_atom_keys::AtomKeys;
use fort_context_closure::{AtomLabels, SignedAtom};
use fort_explore::ExploreFault;
use fort_findings::ClosureEntry;
use fort_labels::ByRule;
use fort_outline::Leaf;
use fort_relations::{Holes, Place, Rel, Rex};
use fort_terms::{System, Term};
use std::alloc::Global;

/// Decides the atom that has these labels.
fn by_labels(
    alloc: Global,
    system: &System,
    labels: &AtomLabels,
    options: &Options,
) -> Result<Decided, ExploreFault>
    ensures { (f : theory.Core) → let sig = system.now.signature in
        AreLabelsFor system.now options.now.reduces f (rule_by sig labels.now).columns
        (label_by sig labels.now) (accepted_by sig labels.now)
        → IsDecision system.now options.now f result }
{
    let signature = system.signature();
    let atom = SignedAtom { signature, labels };
    if !is_branching(signature) {
        return explored(alloc, system, &ByRule(&atom), options);
    }
    let keys = AtomKeys::of(alloc, labels)?;
    explored_by_keys(alloc, system, &ByRule(&atom), &keys, options)
}

/// Decides whether two variables are related; a reduction or a conversion by the closure of the index.
fn related(
    alloc: Global,
    system: &System,
    rel: Rel,
    index: u32,
    x: u32,
    y: u32,
    closure: &[ClosureEntry],
    options: &Options,
) -> Result<Decided, ExploreFault>
    requires index { IsIndexOf system.now.rules index }
    requires passes { ListsPasses (as_rel rel) (at_index index system.now.rules) closure.now }
    ensures { IsDecision system.now options.now
        (theory.Leaf (theory.Related (as_rel rel) index x y)) result }
{
    let labels = AtomLabels::atom(alloc, system, index, rel, x, y, closure)?;
    by_labels(alloc, system, &labels, options)
}

/// Decides whether two variables are one context, of so many holes at such places, with pairs of the
/// expression's relation in its holes.
fn in_context(
    alloc: Global,
    system: &System,
    rex: &Rex,
    holes: Holes,
    place: Place,
    x: u32,
    y: u32,
    options: &Options,
) -> Result<Decided, ExploreFault>
    requires over { IsExpressionOver system.now (as_expression rex.now) }
    requires narrow { HasManyRoots (as_expression rex.now) → ⊥ }
    ensures { IsDecision system.now options.now
        (theory.Leaf (theory.InContext (as_expression rex.now) (as_hole_number holes)
        (as_hole_place place) x y)) result }
{
    let labels = AtomLabels::expression(alloc, system, rex, holes, place, x, y)?;
    by_labels(alloc, system, &labels, options)
}

/// Decides whether a variable is a normal form.
fn normal_form(
    alloc: Global,
    system: &System,
    index: u32,
    options: &Options,
) -> Result<Decided, ExploreFault>
    requires { IsIndexOf system.now.rules index }
    ensures { (x : ℕ) → IsDecision system.now options.now
        (theory.Leaf (theory.Normal index x)) result }
{
    let labels = AtomLabels::nf(alloc, system, index)?;
    by_labels(alloc, system, &labels, options)
}

/// Decides whether a variable is this term.
fn this_term(
    alloc: Global,
    system: &System,
    term: &Term,
    options: &Options,
) -> Result<Decided, ExploreFault>
    ensures { (x : ℕ) → IsDecision system.now options.now
        (theory.Leaf (theory.IsTerm x term.now)) result }
{
    let labels = AtomLabels::is(alloc, term)?;
    by_labels(alloc, system, &labels, options)
}

/// Decides an atom of a formula, to whose parts these closures belong.
pub(crate) fn decide_leaf(
    alloc: Global,
    system: &System,
    leaf: &Leaf,
    closures: &Closures,
    options: &Options,
) -> Result<Decided, ExploreFault>
    requires over { IsAtomOver system.now (as_atom leaf.now) }
    requires narrow { HasManyRootsIn (as_atom leaf.now) → ⊥ }
    requires closures { (parts : List theory.Core)
        × Contains parts (theory.Leaf (as_atom leaf.now))
        × AreClosures system.now parts closures.now.list.items }
    ensures { IsDecision system.now options.now (theory.Leaf (as_atom leaf.now)) result }
{
    match leaf {
        Leaf::Related(rel, index, x, y) => {
            let closure = closures.read_by(*rel, *index);
            related(alloc, system, *rel, *index, *x, *y, closure, options)
        }
        Leaf::InContext(rex, holes, place, x, y) => {
            in_context(alloc, system, rex, *holes, *place, *x, *y, options)
        }
        Leaf::Normal(index, _) => normal_form(alloc, system, *index, options),
        Leaf::IsTerm(_, term) => this_term(alloc, system, term, options),
    }
}
