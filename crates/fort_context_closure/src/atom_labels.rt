//! The labels of an atom, whichever it is.
ghost use Rattle.std.specs.Prelude.{◌≡◌, ◌<◌, ◌≤◌, ℕ, List, [], ◌∷◌, length, All, IfOk};
ghost use Rattle.fort_theory.specs.Sides.{IsIndexOf, at_index};
ghost use Rattle.fort_theory.specs.Sides as sides;
ghost use Rattle.fort_theory.specs.Patterns.{pattern_system};
ghost use Rattle.fort_theory.specs.Signatures as theory;
ghost use Rattle.fort_theory.specs.Cores as cores;
ghost use Rattle.fort_theory.specs.Parts as parts;
ghost use Rattle.fort_relations.specs.RelView.{as_rel};
ghost use Rattle.fort_relations.specs.RexView.{as_expression};
ghost use Rattle.fort_relations.specs.HolesView.{as_hole_number, as_hole_place};
ghost use Rattle.fort_theory.specs.Expressions.{HasManyRoots};
ghost use Rattle.fort_parts.specs.DecidedCores.{IsExpressionOver};
ghost use Rattle.fort_alike.specs.Atoms.{relation_atom, normal_atom};
ghost use Rattle.fort_alike.specs.ExpressionAlike.{expression_atom};
ghost use Rattle.fort_relation_exprs.specs.RexSeen.{RexSeen};
ghost use Rattle.fort_relation_exprs.specs.RexView.{AreRexLabels};
ghost use Rattle.fort_alike.specs.ListedAtoms.{ListedAtom};
ghost use Rattle.fort_context_closure.specs.ClosedAtoms.{ClosedAtom, ListsPasses};
ghost use Rattle.fort_context_closure.specs.PlainAtoms.{IsByPairs, IsNormalAtomOf};

use crate::normal::NormalBits;
use crate::relation::RelationBits;
use crate::term_labels::TermLabels;
use fort_findings::ClosureEntry;
use fort_relation_exprs::RexLabels;
use fort_relations::{Holes, Place, Rel, Rex};
use fort_terms::{System, Term};
use std::alloc::{AllocError, Global};

/// The labels of an atom. They read nothing of a signature.
#[derive(Drop)]
pub enum AtomLabels {
    /// Two variables are related.
    Relation(RelationBits),
    /// Two variables are one context with pairs of an expression's relation in its holes.
    Expression(RexLabels),
    /// A variable is a normal form.
    Normal(NormalBits),
    /// A variable is a term.
    Is(TermLabels),
}

impl AtomLabels {
    ghost use Rattle.fort_context_closure.specs.AtomLabelsView.{column_count, word_count, TellsAlike, AcceptsTrue, AcceptsRelated, AcceptsNormal, AcceptsMet, TellsAlikeAtTerm, AcceptsTerm, TellsAlikeAtExpression, AcceptsExpression};

    /// The labels of "x is related to y". The columns stand in the order of the variables' numbers; there is one where both are one
    /// variable. A reduction or a conversion is told by the closure of the index.
    pub fn atom(
        alloc: Global,
        system: &System,
        index: u32,
        rel: Rel,
        x: u32,
        y: u32,
        closure: &[ClosureEntry],
    ) -> Result<AtomLabels, AllocError>
        requires index { IsIndexOf system.now.rules index }
        requires passes { ListsPasses (as_rel rel) (at_index index system.now.rules) closure.now }
        ensures columns { IfOk result (λ l. (columns : List ℕ)
            → parts.AreColumns (cores.Leaf (cores.Related (as_rel rel) index x y)) columns
            → column_count l ≡ length columns) }
        ensures alike { IfOk result (λ l. (columns : List ℕ)
            → parts.AreColumns (cores.Leaf (cores.Related (as_rel rel) index x y)) columns
            → TellsAlike system.now.signature
            (relation_atom system.now (as_rel rel) index x y columns) l) }
        ensures accepted { IfOk result (λ l. (columns : List ℕ)
            → parts.AreColumns (cores.Leaf (cores.Related (as_rel rel) index x y)) columns
            → AcceptsTrue system.now.signature
            (relation_atom system.now (as_rel rel) index x y columns) l) }
        ensures related { IfOk result (λ l. (columns : List ℕ)
            → parts.AreColumns (cores.Leaf (cores.Related (as_rel rel) index x y)) columns
            → AcceptsRelated system.now (as_rel rel) index x y columns l) }
        ensures truth { IfOk result (λ l. (s : sides.System) (columns : List ℕ)
            → system.now ≡ pattern_system s → All (All sides.IsLinearSeparated) s.rules
            → parts.AreColumns (cores.Leaf (cores.Related (as_rel rel) index x y)) columns
            → AcceptsMet s (cores.Leaf (cores.Related (as_rel rel) index x y)) columns l) }
    {
        // Fetches the law that a system keeps to.
        let _lawful = system.signature();
        Ok(AtomLabels::Relation(RelationBits::by_pairs(alloc, system, index, rel, x, y, closure)?))
    }

    /// The labels of "x is related to y" by pairs that are handed in, whatever they are.
    pub fn by_pairs(
        alloc: Global,
        system: &System,
        index: u32,
        rel: Rel,
        x: u32,
        y: u32,
        pairs: &[ClosureEntry],
    ) -> Result<AtomLabels, AllocError>
        requires { IsIndexOf system.now.rules index }
        ensures { IfOk result (λ l. (c : ClosedAtom) × (l ≡ AtomLabels.Relation c)
            × IsByPairs system.now (as_rel rel) index x y pairs.now c) }
    {
        Ok(AtomLabels::Relation(RelationBits::by_pairs(alloc, system, index, rel, x, y, pairs)?))
    }

    /// The labels of "x and y are one context with pairs of the expression's relation in its holes",
    /// of so many holes at such places. The columns stand in the order of the variables' numbers;
    /// there is one where both are one variable.
    pub fn expression(
        alloc: Global,
        system: &System,
        rex: &Rex,
        holes: Holes,
        place: Place,
        x: u32,
        y: u32,
    ) -> Result<AtomLabels, AllocError>
        requires over { IsExpressionOver system.now (as_expression rex.now) }
        requires narrow { HasManyRoots (as_expression rex.now) → ⊥ }
        ensures columns { IfOk result (λ l. (columns : List ℕ)
            → parts.AreColumns (cores.Leaf (cores.InContext (as_expression rex.now)
            (as_hole_number holes) (as_hole_place place) x y)) columns
            → column_count l ≡ length columns) }
        ensures alike { IfOk result (λ l. (columns : List ℕ)
            → parts.AreColumns (cores.Leaf (cores.InContext (as_expression rex.now)
            (as_hole_number holes) (as_hole_place place) x y)) columns
            → TellsAlikeAtExpression (expression_atom system.now (as_expression rex.now)
            (as_hole_number holes) (as_hole_place place) x y columns) l) }
        ensures accepted { IfOk result (λ l. (columns : List ℕ)
            → parts.AreColumns (cores.Leaf (cores.InContext (as_expression rex.now)
            (as_hole_number holes) (as_hole_place place) x y)) columns
            → AcceptsExpression (expression_atom system.now (as_expression rex.now)
            (as_hole_number holes) (as_hole_place place) x y columns) l) }
        ensures labels { IfOk result (λ l. (r : RexSeen) × (l ≡ AtomLabels.Expression r)
            × AreRexLabels system.now (as_expression rex.now) (as_hole_number holes)
            (as_hole_place place) x y r) }
    {
        let labels = RexLabels::new(alloc, system, rex, holes, place, x, y)?;
        Ok(AtomLabels::Expression(labels))
    }

    /// The labels of "the variable is a normal form", of one column.
    pub fn nf(alloc: Global, system: &System, index: u32) -> Result<AtomLabels, AllocError>
        requires { IsIndexOf system.now.rules index }
        ensures columns { IfOk result (λ l. column_count l ≡ 1) }
        ensures alike { IfOk result (TellsAlike system.now.signature
            (normal_atom system.now index)) }
        ensures accepted { IfOk result (AcceptsTrue system.now.signature
            (normal_atom system.now index)) }
        ensures normal { IfOk result (λ l. (x : ℕ) → AcceptsNormal system.now index x l) }
        ensures truth { IfOk result (λ l. (s : sides.System) (x : ℕ)
            → system.now ≡ pattern_system s → All (All sides.IsLinearSeparated) s.rules
            → AcceptsMet s (cores.Leaf (cores.Normal index x)) (x ∷ []) l) }
        ensures plain { IfOk result (λ l. (a : ListedAtom) × (l ≡ AtomLabels.Normal a)
            × IsNormalAtomOf system.now index a) }
    {
        Ok(AtomLabels::Normal(NormalBits::new(alloc, system, index)?))
    }

    /// The labels of "the variable is this term", of one column.
    pub fn is(alloc: Global, term: &Term) -> Result<AtomLabels, AllocError>
        ensures columns { IfOk result (λ l. column_count l ≡ 1) }
        ensures alike { IfOk result (λ l. (sig : theory.Signature)
            → TellsAlikeAtTerm sig term.now l) }
        ensures accepted { IfOk result (λ l. (sig : theory.Signature)
            → AcceptsTerm sig term.now l) }
        ensures term { IfOk result (λ l. l ≡ AtomLabels.Is term.now) }
    {
        Ok(AtomLabels::Is(TermLabels::new(alloc, term)?))
    }

    pub fn columns(&self) -> usize
        ensures count { result ≡ column_count self.now }
        ensures some { 0 < result }
        ensures narrow { result ≤ 2 }
    {
        match self {
            AtomLabels::Relation(bits) => bits.columns(),
            AtomLabels::Expression(labels) => labels.columns(),
            AtomLabels::Normal(bits) => bits.columns(),
            AtomLabels::Is(_) => 1,
        }
    }

    /// The number of words.
    pub fn width(&self) -> usize
        ensures { result ≡ word_count self.now }
    {
        match self {
            AtomLabels::Relation(bits) => bits.width(),
            AtomLabels::Expression(labels) => labels.width(),
            AtomLabels::Normal(bits) => bits.width(),
            AtomLabels::Is(_) => 2,
        }
    }
}
