//! The closures that the parts of a formula ask for, each made once.
ghost use Rattle.std.specs.Prelude.{◌≡◌, ◌++◌, ◌↔◌, ℕ, List, map, Contains, IfOk, OnOk, IsTrue};
ghost use Rattle.std.specs.List.{All};
ghost use Rattle.fort_theory.specs.Patterns.{PatternSystem};
ghost use Rattle.fort_theory.specs.Sides.{IsIndexOf, at_index};
ghost use Rattle.fort_theory.specs.Cores as theory;
ghost use Rattle.fort_relations.specs.RelView.{as_rel};
ghost use Rattle.fort_alike.specs.ListedClosures as definitions;
ghost use Rattle.fort_alike.specs.ListedClosures.{relation_of};
ghost use Rattle.fort_findings.specs.FindingView.{as_which};
ghost use Rattle.fort_outline.specs.Roots.{cores_of};
ghost use Rattle.fort_context_closure.specs.ClosedAtoms.{ListsNone, ListsPasses};
ghost use Rattle.fort_engine.specs.Closures.{name_of, closure_asked, ListsItsPasses, AreClosuresOf, AreClosures};

use fort_context_closure::closure;
use fort_findings::{ClosureEntry, Which};
use fort_outline::{Root, is_closure_asked};
use fort_relations::Rel;
use fort_terms::System;
use std::alloc::{AllocError, Global};

/// A closure of an index.
#[derive(Drop)]
pub struct IndexClosure {
    pub which: Which,
    pub index: u32,
    pub entries: Vec<ClosureEntry>,
}

/// The closures that the parts of a formula ask for, index by index.
#[derive(Drop)]
pub struct Closures {
    pub list: Vec<IndexClosure>,
}

/// The relation that a closure tells.
fn relation(which: Which) -> Rel
    ensures { as_rel result ≡ relation_of (as_which which) }
{
    match which {
        Which::Star => Rel::Star,
        Which::Conv => Rel::Conv,
    }
}

/// The closure of an index, where some part asks for it.
fn push_closure(
    alloc: Global,
    system: &System,
    roots: &[Root],
    which: Which,
    index: u32,
    list: &mut Vec<IndexClosure>,
) -> Result<(), AllocError>
    requires { IsIndexOf system.now.rules index }
    ensures { OnOk result ((names : List (definitions.Which × ℕ))
        → AreClosuresOf system.now names list.old.items
        → AreClosuresOf system.now
        (names ++ closure_asked (cores_of roots.now) index (as_which which)) list.new.items) }
{
    if !is_closure_asked(which, index, roots) {
        return Ok(());
    }
    let entries = closure(alloc, system, index, relation(which))?;
    list.push(IndexClosure {
        which,
        index,
        entries,
    })?;
    Ok(())
}

/// The closures of an index.
fn push_both(
    alloc: Global,
    system: &System,
    roots: &[Root],
    index: u32,
    list: &mut Vec<IndexClosure>,
) -> Result<(), AllocError>
    requires { IsIndexOf system.now.rules index }
    ensures { OnOk result ((names : List (definitions.Which × ℕ))
        → AreClosuresOf system.now names list.old.items
        → AreClosuresOf system.now (names ++ (closure_asked (cores_of roots.now) index definitions.Star
        ++ closure_asked (cores_of roots.now) index definitions.Conv)) list.new.items) }
{
    push_closure(alloc, system, roots, Which::Star, index, list)?;
    push_closure(alloc, system, roots, Which::Conv, index, list)?;
    Ok(())
}

impl IndexClosure {
    /// Whether it is this closure of this index.
    fn is_of(&self, which: Which, index: u32) -> bool
        ensures { IsTrue result ↔ (name_of self.now ≡ (as_which which, index)) }
    {
        self.which == which && self.index == index
    }
}

impl Closures {
    /// The closures that the parts with these roots ask for.
    pub fn new(alloc: Global, system: &System, roots: &[Root]) -> Result<Closures, AllocError>
        ensures { IfOk result (λ c. AreClosures system.now (cores_of roots.now) c.list.items) }
    {
        let mut list = Vec::new(alloc);
        for i in 0..system.number() {
            push_both(alloc, system, roots, i + 1, &mut list)?;
        }
        Ok(Closures { list })
    }

    /// The entries of a closure that is there.
    fn entries(&self, which: Which, index: u32) -> &[ClosureEntry]
        ensures { (system : PatternSystem) → All (ListsItsPasses system) self.now.list.items
            → Contains (map name_of self.now.list.items) (as_which which, index)
            → ListsPasses (relation_of (as_which which)) (at_index index system.rules)
            result.now }
    {
        for closure in &self.list {
            if closure.is_of(which, index) {
                return &closure.entries;
            }
        }
        &[]
    }

    /// The closure by which a relation of an index is told; empty for a relation that reads none.
    pub fn read_by(&self, rel: Rel, index: u32) -> &[ClosureEntry]
        ensures passes { (system : PatternSystem) (parts : List theory.Core) (x y : ℕ)
            → AreClosures system parts self.now.list.items → IsIndexOf system.rules index
            → Contains parts (theory.Leaf (theory.Related (as_rel rel) index x y))
            → ListsPasses (as_rel rel) (at_index index system.rules) result.now }
        ensures none { ListsNone (as_rel rel) result.now }
    {
        match Which::of(rel) {
            Some(which) => self.entries(which, index),
            None => &[],
        }
    }
}
