//! What each part is checked by, taken from the formula and the certificate before the check.
ghost use Rattle.std.specs.Prelude.{◌≡◌, ℕ, ◌<◌, ◌^◌, false, List, map, length, Contains, IfOk, IfSome, IfNone};
ghost use Rattle.fort_theory.specs.Cores.{Binary};
ghost use Rattle.fort_theory.specs.Patterns.{PatternSystem};
ghost use Rattle.fort_theory.specs.Sides.{IsIndexOf};
ghost use Rattle.fort_certificate_theory.specs.Certificates as theory_steps;
ghost use Rattle.fort_theory.specs.Cores as theory;
ghost use Rattle.fort_relations.specs.RelView.{as_rel};
ghost use Rattle.fort_outline.specs.LeafView.{as_atom};
ghost use Rattle.fort_theory.specs.Parts.{HasManyRootsIn};
ghost use Rattle.fort_parts.specs.DecidedCores.{IsAtomOver};
ghost use Rattle.fort_outline.specs.Outlines.{IsOutlineOf, parts_in, core_at};
ghost use Rattle.fort_parts.specs.PartColumns.{columns_of, place_in};
ghost use Rattle.fort_steps.specs.StepView.{as_step};
ghost use Rattle.fort_connectives.specs.ConnectiveView.{connective_of};
ghost use Rattle.fort_certificate_theory.specs.Dues as definitions;
ghost use Rattle.fort_cert_checker.specs.Sources.{IsSourceOf, IsTurnedBody};
ghost use Rattle.fort_cert_checker.specs.Plans.{IsFitPart, IsOperandPlan, IsClosureRead, IsAtomPlan, IsWorkOf, IsPlanOf};

use crate::about::{closure_pairs, marks_of};
use fort_connectives::Op;
use fort_context_closure::AtomLabels;
use fort_findings::{ClosureEntry, Count, Which};
use fort_outline::{Leaf, Outline, Root, column_of, places_among};
use fort_relations::Rel;
use fort_steps::Step;
use fort_terms::System;
use std::alloc::{AllocError, Global};

/// Where the answer to a formula is: that of a part's step, under so many negations.
#[derive(Clone, Copy)]
pub(crate) struct Source {
    pub part: u32,
    pub turns: usize,
}

/// An operand of a product, with the places of its columns among those of the product.
#[derive(Drop)]
pub(crate) struct OperandPlan {
    pub source: Source,
    pub places: Vec<usize>,
}

/// How the answer of a part is found.
#[derive(Drop)]
pub(crate) enum Work {
    /// It is true.
    Truth,
    Atom(AtomLabels),
    Negation(Source),
    Product(Op, OperandPlan, OperandPlan),
    /// "Some" over the column of this place in the operand.
    Projection(Source, usize),
    /// "Infinitely many" over the column of this place, with the marks of the operand's pure states.
    Many(Source, usize, Vec<Count>),
}

/// What a part is checked by, and how many columns it has.
#[derive(Drop)]
pub(crate) struct Plan {
    pub columns: usize,
    pub work: Work,
}

/// The operand of part `k`, a negation with columns, whose table is that of the operand with the accepting states turned; or none where
/// part `k` is no such negation.
fn turned_body(outline: &Outline, k: usize) -> Option<usize>
    requires outline { (f : theory.Core) × IsOutlineOf f outline.now }
    requires within { k < length outline.now.roots.items }
    ensures some { IfSome result (IsTurnedBody (parts_in outline.now) k) }
    ensures none { IfNone result (definitions.is_turned (core_at outline.now k) ≡ false) }
{
    match &outline.roots[k] {
        Root::Not(body) => {
            if outline.columns[k].is_empty() {
                None
            } else {
                Some(*body)
            }
        }
        _ => None,
    }
}

/// Where the answer to part `k` is.
pub(crate) fn source_of(outline: &Outline, k: usize) -> Source
    requires outline { (f : theory.Core) × IsOutlineOf f outline.now }
    requires few { length outline.now.roots.items < 2 ^ 32 }
    requires within { k < length outline.now.roots.items }
    ensures { IsSourceOf (parts_in outline.now) (core_at outline.now k) result.part
        result.turns }
{
    let mut part = k;
    let mut turns = 0;
    while let Some(body) = turned_body(outline, part) {
        part = body;
        turns += 1;
    }
    Source {
        part: part as u32,
        turns,
    }
}

/// The place of a bound number among the columns of the operand `f` that it is bound in.
fn bound_column(outline: &Outline, n: u32, f: usize) -> usize
    requires outline { (g : theory.Core) × IsOutlineOf g outline.now }
    requires within { f < length outline.now.roots.items }
    requires free { Contains (columns_of (core_at outline.now f)) n }
    ensures { result ≡ place_in (columns_of (core_at outline.now f)) n }
{
    column_of(&outline.columns[f], n)
}

/// Operand `f` of part `k`, which has all its columns.
fn operand_plan(
    alloc: Global,
    outline: &Outline,
    k: usize,
    f: usize,
) -> Result<OperandPlan, AllocError>
    requires outline { (g : theory.Core) × IsOutlineOf g outline.now }
    requires few { length outline.now.roots.items < 2 ^ 32 }
    requires whole { k < length outline.now.roots.items }
    requires within { f < length outline.now.roots.items }
    requires columns { (n : ℕ) → Contains (columns_of (core_at outline.now f)) n
        → Contains (columns_of (core_at outline.now k)) n }
    ensures { IfOk result (IsOperandPlan (parts_in outline.now) (core_at outline.now k)
        (core_at outline.now f)) }
{
    let places = places_among(alloc, &outline.columns[k], &outline.columns[f])?;
    Ok(OperandPlan {
        source: source_of(outline, f),
        places,
    })
}

/// The product of two parts, which part `k` is.
fn product_work(
    alloc: Global,
    outline: &Outline,
    k: usize,
    op: Op,
    first: usize,
    second: usize,
) -> Result<Work, AllocError>
    requires outline { (g : theory.Core) × IsOutlineOf g outline.now }
    requires few { length outline.now.roots.items < 2 ^ 32 }
    requires within { k < length outline.now.roots.items }
    requires first { first < length outline.now.roots.items }
    requires second { second < length outline.now.roots.items }
    requires whole { core_at outline.now k ≡ Binary (connective_of op)
        (core_at outline.now first) (core_at outline.now second) }
    ensures { IfOk result (λ w. (system : PatternSystem) (ss : List theory_steps.Step) (i : ℕ)
        → IsWorkOf system (parts_in outline.now) ss i (core_at outline.now k) w) }
{
    let first = operand_plan(alloc, outline, k, first)?;
    let second = operand_plan(alloc, outline, k, second)?;
    Ok(Work::Product(op, first, second))
}

/// The pairs that a relation reads: none, or those of a closure.
fn pairs_read<'a>(steps: &'a [Step], rel: Rel, index: u32) -> &'a [ClosureEntry]
    ensures { IsClosureRead (map as_step steps.now) (as_rel rel) index result.now }
{
    match Which::of(rel) {
        Some(which) => closure_pairs(steps, which, index),
        None => &[],
    }
}

/// The labels of a relation, by the pairs that it reads.
fn relation_labels(
    alloc: Global,
    system: &System,
    steps: &[Step],
    rel: Rel,
    index: u32,
    x: u32,
    y: u32,
) -> Result<AtomLabels, AllocError>
    requires { IsIndexOf system.now.rules index }
    ensures { IfOk result (IsAtomPlan system.now (map as_step steps.now)
        (theory.Leaf (theory.Related (as_rel rel) index x y))) }
{
    let pairs = pairs_read(steps, rel, index);
    AtomLabels::by_pairs(alloc, system, index, rel, x, y, pairs)
}

/// The labels of an atom.
fn atom_labels(
    alloc: Global,
    system: &System,
    steps: &[Step],
    leaf: &Leaf,
) -> Result<AtomLabels, AllocError>
    requires over { IsAtomOver system.now (as_atom leaf.now) }
    requires narrow { HasManyRootsIn (as_atom leaf.now) → ⊥ }
    ensures { IfOk result (IsAtomPlan system.now (map as_step steps.now)
        (theory.Leaf (as_atom leaf.now))) }
{
    match leaf {
        Leaf::Related(rel, index, x, y) => {
            relation_labels(alloc, system, steps, *rel, *index, *x, *y)
        }
        Leaf::InContext(rex, holes, place, x, y) => {
            AtomLabels::expression(alloc, system, rex, *holes, *place, *x, *y)
        }
        Leaf::Normal(index, _) => AtomLabels::nf(alloc, system, *index),
        Leaf::IsTerm(_, term) => AtomLabels::is(alloc, term),
    }
}

/// How the answer of part `k` is found.
fn work_of(
    alloc: Global,
    system: &System,
    steps: &[Step],
    outline: &Outline,
    k: usize,
) -> Result<Work, AllocError>
    requires outline { (g : theory.Core) × IsOutlineOf g outline.now }
    requires few { length outline.now.roots.items < 2 ^ 32 }
    requires within { k < length outline.now.roots.items }
    requires fit { IsFitPart system.now (core_at outline.now k) }
    ensures { IfOk result (IsWorkOf system.now (parts_in outline.now) (map as_step steps.now) k
        (core_at outline.now k)) }
{
    match &outline.roots[k] {
        Root::True => Ok(Work::Truth),
        Root::Leaf(leaf) => Ok(Work::Atom(atom_labels(alloc, system, steps, leaf)?)),
        Root::Not(f) => Ok(Work::Negation(source_of(outline, *f))),
        Root::Binary(op, f, g) => product_work(alloc, outline, k, *op, *f, *g),
        Root::Exists(n, f) => {
            let column = bound_column(outline, *n, *f);
            Ok(Work::Projection(source_of(outline, *f), column))
        }
        Root::Infinite(n, f) => {
            let column = bound_column(outline, *n, *f);
            let marks = Vec::from_slice(alloc, marks_of(steps, k as u32))?;
            Ok(Work::Many(source_of(outline, *f), column, marks))
        }
    }
}

impl Plan {
    /// Of part `k`.
    pub(crate) fn new(
        alloc: Global,
        system: &System,
        steps: &[Step],
        outline: &Outline,
        k: usize,
    ) -> Result<Plan, AllocError>
        requires outline { (g : theory.Core) × IsOutlineOf g outline.now }
        requires few { length outline.now.roots.items < 2 ^ 32 }
        requires within { k < length outline.now.roots.items }
        requires fit { IsFitPart system.now (core_at outline.now k) }
        ensures { IfOk result (IsPlanOf system.now (parts_in outline.now) (map as_step steps.now) k
            (core_at outline.now k)) }
    {
        let work = work_of(alloc, system, steps, outline, k)?;
        Ok(Plan {
            columns: outline.columns[k].len(),
            work,
        })
    }
}
