//! The labels of an atom of an expression.
ghost use Rattle.std.specs.Prelude.{◌≡◌, ◌≢◌, ◌↔◌, ℕ, ◌+◌, ◌*◌, ◌-◌, ◌<◌, ◌≤◌, ◌^◌, List, length, map, slice_index_or, IfOk, Contains};
ghost use Rattle.fort_theory.specs.Signatures as theory;
ghost use Rattle.fort_theory.specs.Cores as cores;
ghost use Rattle.fort_theory.specs.Parts as parts;
ghost use Rattle.fort_alike.specs.ExpressionAlike.{expression_atom};
ghost use Rattle.fort_theory.specs.Expressions.{HasManyRoots};
ghost use Rattle.fort_parts.specs.DecidedCores.{IsExpressionOver};
ghost use Rattle.fort_tables.specs.LabelRules.{entry_label};
ghost use Rattle.fort_tree_automata.specs.NtaView.{automaton_of};
ghost use Rattle.fort_transducers.specs.AgttView.{NamesItsStates};
ghost use Rattle.fort_relations.specs.HolesView.{as_hole_number, as_hole_place};
ghost use Rattle.fort_relations.specs.RexView.{as_expression};
ghost use Rattle.fort_alike.specs.ExpressionRules.{some_pair, left_bit, right_bit};
ghost use Rattle.fort_alike.specs.ListedAtoms.{AreArguments};
ghost use Rattle.fort_label_bits.specs.RowBits.{bit_of};
ghost use Rattle.fort_relation_exprs.specs.RexInside.{IsOfTransducer, pair_place, is_any_number};
ghost use Rattle.fort_relation_exprs.specs.RexView.{rex_rule, rex_accepts, rex_words, TellsAlikeInContext, AcceptsInContext};

use crate::compiling::compile;
use crate::facts::{fact_count, place_anywhere, place_below, write_facts};
use crate::side::Side;
use fort_label_bits::{
    Arguments, RulePlaces, arguments_of, clear, has_mark, put_first, rules_under, same_roots,
    some_marked, some_rule,
};
use fort_labels::Rows;
use fort_relations::{Holes, Place, Rex};
use fort_terms::System;
use fort_transducers::Agtt;
use fort_tuple_symbols::Row;
use std::alloc::{AllocError, Global};
use std::marker::Model;

/// The labels of an atom "x and y are one context with pairs of an expression's relation in its
/// holes". A label is the presence, and then a bit for each left state, on where the first argument
/// has it, one for each right state, on where the second has it, and one for each fact of both.
#[derive(Drop)]
pub struct RexLabels {
    holes: Holes,
    place: Place,
    arguments: Arguments,
    left: Side,
    right: Side,
    pairs: Vec<RulePlaces>,
    /// For each left state, the places of the pairs that have it.
    under: Vec<Vec<usize>>,
}

impl Model for RexLabels {
    ghost use Rattle.fort_relation_exprs.specs.RexSeen.{RexSeen, rex_code};
    ghost use Rattle.fort_relation_exprs.specs.RexInside.{rex_seen, IsRex};

    ghost Value = { RexSeen };

    ghost coded = { rex_code };

    ghost view = { rex_seen };

    ghost invariant = { IsRex };
}

impl RexLabels {
    /// The labels of the atom of an expression. The columns stand in the order of the variables'
    /// numbers; there is one where both are one variable.
    pub fn new(
        alloc: Global,
        system: &System,
        rex: &Rex,
        holes: Holes,
        place: Place,
        x: u32,
        y: u32,
    ) -> Result<RexLabels, AllocError>
        requires over { IsExpressionOver system.now (as_expression rex.now) }
        requires narrow { HasManyRoots (as_expression rex.now) → ⊥ }
        ensures columns { IfOk result (λ l. (columns : List ℕ)
            → parts.AreColumns (cores.Leaf (cores.InContext (as_expression rex.now)
            (as_hole_number holes) (as_hole_place place) x y)) columns
            → l.shape.columns ≡ length columns) }
        ensures alike { IfOk result (λ l. (columns : List ℕ)
            → parts.AreColumns (cores.Leaf (cores.InContext (as_expression rex.now)
            (as_hole_number holes) (as_hole_place place) x y)) columns
            → TellsAlikeInContext (expression_atom system.now (as_expression rex.now)
            (as_hole_number holes) (as_hole_place place) x y columns) l) }
        ensures accepted { IfOk result (λ l. (columns : List ℕ)
            → parts.AreColumns (cores.Leaf (cores.InContext (as_expression rex.now)
            (as_hole_number holes) (as_hole_place place) x y)) columns
            → AcceptsInContext (expression_atom system.now (as_expression rex.now)
            (as_hole_number holes) (as_hole_place place) x y columns) l) }
        ensures arguments { IfOk result (λ l. AreArguments l.shape.columns l.shape.first
            l.shape.second) }
    {
        let agtt = compile(alloc, system, rex)?;
        RexLabels::of_transducer(alloc, &agtt, holes, place, arguments_of(x, y))
    }

    /// By the states of a transducer.
    fn of_transducer(
        alloc: Global,
        agtt: &Agtt,
        holes: Holes,
        place: Place,
        arguments: Arguments,
    ) -> Result<RexLabels, AllocError>
        requires named { NamesItsStates agtt.now }
        requires arguments { AreArguments arguments.columns arguments.first arguments.second }
        ensures { IfOk result (IsOfTransducer agtt.now (as_hole_number holes)
            (as_hole_place place) arguments) }
    {
        let lefts = agtt.left.states as usize;
        let all = lefts + agtt.right.states as usize;
        let left = Side::new(alloc, &agtt.left, 0, 1 + (lefts + 63) / 64)?;
        let right = Side::new(alloc, &agtt.right, lefts, 1 + (all + 63) / 64)?;
        let pairs = places_of_pairs(alloc, &agtt.pairs)?;
        let under = rules_under(alloc, &pairs, lefts)?;
        Ok(RexLabels {
            holes,
            place,
            arguments,
            left,
            right,
            pairs,
            under,
        })
    }

    pub fn columns(&self) -> usize
        ensures count { result ≡ self.now.shape.columns }
        ensures some { 0 < result }
        ensures narrow { result ≤ 2 }
    {
        self.arguments.columns
    }

    /// The number of words.
    pub fn width(&self) -> usize
        ensures { result ≡ rex_words self.now }
    {
        let facts = fact_count(self.holes, self.place);
        1 + (self.left.count + self.right.count + facts + 63) / 64
    }

    /// The label of an entry over states with these labels.
    pub fn step(&self, row: &Row, rows: &Rows, out: &mut [u64])
        requires columns { length row.now.symbol ≡ self.now.shape.columns }
        requires within { (j : ℕ) → j < length row.now.kids
            → slice_index_or row.now.kids j 0 < length rows.now.labels }
        requires room { length out.old ≡ rex_words self.now }
        ensures { (sig : theory.Signature) → out.new ≡ entry_label (rex_rule sig self.now)
            rows.now.labels row.now }
    {
        let first = row.symbol(self.arguments.first);
        let second = row.symbol(self.arguments.second);
        let right_base = self.left.count;
        clear(out);
        self.left.write(0, first, row, rows, out);
        self.right.write(right_base, second, row, rows, out);
        let root = some_marked(&self.under, &self.pairs, right_base, out);
        write_facts(
            self.holes,
            self.place,
            right_base + self.right.count,
            same_roots(first, second),
            root,
            row,
            rows,
            out,
        );
        put_first(out, row.presence() as u64);
    }

    /// Whether some pair has both its states in the label.
    fn has_pair(&self, label: &[u64]) -> bool
        ensures { result ≡ some_pair (left_bit label.now)
            (right_bit self.now.left.count label.now) self.now.pairs }
    {
        some_rule(&self.pairs, self.left.count, label)
    }

    /// Whether the label has the fact at this place among the facts.
    fn has_fact(&self, fact: usize, label: &[u64]) -> bool
        requires { fact < 3 }
        ensures { result ≡ bit_of (self.now.left.count + self.now.right.count + fact)
            label.now }
    {
        has_mark(label, self.left.count + self.right.count + fact)
    }

    /// Whether the atom holds of the terms whose label this is.
    pub fn accepts(&self, label: &[u64]) -> bool
        ensures { result ≡ rex_accepts self.now label.now }
    {
        match self.place {
            Place::Root => {
                self.has_pair(label) || (is_any(self.holes) && self.has_fact(0, label))
            }
            Place::Below => self.has_fact(place_below(self.holes), label),
            Place::All => self.has_fact(place_anywhere(self.holes), label),
        }
    }
}

/// Whether any number of holes is meant.
fn is_any(holes: Holes) -> bool
    ensures { result ≡ is_any_number (as_hole_number holes) }
{
    matches!(holes, Holes::Any)
}

/// The pairs of states, as places on either side.
fn places_of_pairs(alloc: Global, pairs: &[(u32, u32)]) -> Result<Vec<RulePlaces>, AllocError>
    ensures { IfOk result (λ places. places.items ≡ map pair_place pairs.now) }
{
    let mut places = Vec::with_capacity(alloc, pairs.len())?;
    for pair in pairs {
        places.push(RulePlaces {
            left: pair.0,
            right: pair.1,
        })?;
    }
    Ok(places)
}
