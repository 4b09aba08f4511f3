//! The labels of an atom that relates two terms, by bits.
ghost use Rattle.std.specs.Prelude.{◌≡◌, ℕ, ◌+◌, ◌-◌, ◌<◌, ◌≤◌, ◌^◌, suc, map, true, length, slice_index_or, Contains, IfOk};
ghost use Rattle.fort_theory.specs.Patterns as theory;
ghost use Rattle.fort_theory.specs.Sides.{IsIndexOf, at_index};
ghost use Rattle.fort_relations.specs.RelView.{as_rel};
ghost use Rattle.fort_tables.specs.BitRows.{words_for};
ghost use Rattle.fort_tables.specs.LabelRules.{entry_label};
ghost use Rattle.fort_tuple_symbols.specs.Columns.{as_column};
ghost use Rattle.fort_alike.specs.Atoms.{kind_for};
ghost use Rattle.fort_alike.specs.Alike.{is_reaching};
ghost use Rattle.fort_alike.specs.AtomRules.{marks_of, atom_rule, atom_accepts};
ghost use Rattle.fort_label_bits.specs.NumberedView.{AreNumbersOf};
ghost use Rattle.fort_label_bits.specs.RowBits.{HasBits, labels_at};
ghost use Rattle.fort_context_closure.specs.PlainAtoms.{IsOfRules, IsByPairs};
ghost use Rattle.fort_context_closure.specs.ClosedAtoms.{numbers_of, pattern_bits, test_of};
ghost use Rattle.fort_context_closure.specs.ReachRows.{IsReach, NoPatternTwice};
ghost use Rattle.fort_context_closure.specs.RuleLists.{ListsRules};
ghost use Rattle.fort_terms.specs.PatternView.{as_pair, as_pattern};

use crate::facts::{fact_count, write_facts};
use crate::reach::{Reach, reach_of};
use crate::reached::{RootPair, RuleRoots, add_reached, root_rules};
use crate::rule_list::{RuleList, rules_of};
use fort_findings::{ClosureEntry, Which};
use fort_label_bits::{
    Arguments, Numbered, Rooted, RulePlaces, arguments_of, clear, has_mark, number_patterns,
    places_of_rules, put_first, root_patterns, rules_under, same_roots, some_marked, some_rule,
    write_rooted,
};
use fort_labels::Rows;
use fort_relations::Rel;
use fort_terms::{Pattern, Sym, System};
use fort_tuple_symbols::Row;
use std::alloc::{AllocError, Global};
use std::marker::Model;

/// The bits of the labels of an atom that relates two terms. It is seen as the atom, without its signature, which no label reads, and
/// the entries of the closure that its labels go by.
#[derive(Drop)]
pub struct RelationBits {
    rel: Rel,
    arguments: Arguments,
    left_patterns: Vec<Pattern>,
    right_patterns: Vec<Pattern>,
    /// The left patterns by numbers, and the right ones.
    lefts: Vec<Numbered>,
    rights: Vec<Numbered>,
    /// Both by the roots of the patterns.
    left_roots: Rooted,
    right_roots: Rooted,
    rules: Vec<RulePlaces>,
    rule_roots: RuleRoots,
    /// For each left pattern, the places of the rules whose left side it is.
    under: Vec<Vec<usize>>,
    reach: Reach,
    entries: Vec<ClosureEntry>,
}

impl Model for RelationBits {
    ghost use Rattle.fort_context_closure.specs.ClosedAtoms.{ClosedAtom};
    ghost use Rattle.fort_context_closure.specs.RelationView.{atom_seen, IsRelation};

    ghost Value = { ClosedAtom };

    ghost use Rattle.fort_context_closure.specs.AtomCode.{atom_code};

    ghost coded = { atom_code };

    ghost view = { atom_seen };

    ghost invariant = { IsRelation };
}

impl RelationBits {
    /// By pairs that are handed in, whatever they are: each is read as the places of a right pattern and of a left one. No label reads
    /// its reason.
    pub fn by_pairs(
        alloc: Global,
        system: &System,
        index: u32,
        rel: Rel,
        x: u32,
        y: u32,
        pairs: &[ClosureEntry],
    ) -> Result<RelationBits, AllocError>
        requires { IsIndexOf system.now.rules index }
        ensures { IfOk result (IsByPairs system.now (as_rel rel) index x y pairs.now) }
    {
        let list = rules_of(alloc, system, index, rel)?;
        let entries = Vec::from_slice(alloc, pairs)?;
        RelationBits::of_rules(alloc, rel, x, y, list, entries)
    }

    /// By rules, the patterns of their sides, and a closure.
    fn of_rules(
        alloc: Global,
        rel: Rel,
        x: u32,
        y: u32,
        list: RuleList,
        entries: Vec<ClosureEntry>,
    ) -> Result<RelationBits, AllocError>
        requires { ListsRules (map as_pair list.rules.items) list }
        ensures { IfOk result (λ c. IsOfRules (as_rel rel) x y (map as_pair list.rules.items)
            (map as_pattern list.lefts.items) (map as_pattern list.rights.items) c.atom
            × (c.entries ≡ entries.items)) }
    {
        let lefts = number_patterns(alloc, &list.lefts)?;
        let rights = number_patterns(alloc, &list.rights)?;
        let rules = places_of_rules(alloc, &list.rules, &list.lefts, &list.rights)?;
        let left_roots = root_patterns(alloc, &lefts)?;
        let right_roots = root_patterns(alloc, &rights)?;
        let rule_roots = root_rules(alloc, &rules, &lefts, &rights)?;
        let reach = reach_for(alloc, rel, lefts.len(), rights.len(), &entries)?;
        let under = rules_under(alloc, &rules, lefts.len())?;
        Ok(RelationBits {
            rel,
            arguments: arguments_of(x, y),
            left_patterns: list.lefts,
            right_patterns: list.rights,
            lefts,
            rights,
            left_roots,
            right_roots,
            rules,
            rule_roots,
            under,
            reach,
            entries,
        })
    }

    /// How many bits the patterns and facts have.
    fn mark_count(&self) -> usize
        ensures count { result ≡ length (marks_of self.now.atom) }
        ensures few { result < 2 ^ 34 }
    {
        self.lefts.len() + self.rights.len() + fact_count(self.rel)
    }

    pub fn columns(&self) -> usize
        ensures count { result ≡ self.now.atom.atom.columns }
        ensures some { 0 < result }
        ensures narrow { result ≤ 2 }
    {
        self.arguments.columns
    }

    /// The number of words.
    pub fn width(&self) -> usize
        ensures { result ≡ suc (words_for (length (marks_of self.now.atom))) }
    {
        1 + (self.mark_count() + 63) / 64
    }

    pub fn rel(&self) -> Rel
        ensures { kind_for (as_rel result) ≡ self.now.atom.atom.kind }
    {
        self.rel
    }

    pub fn arguments(&self) -> Arguments
        ensures first { result.first ≡ self.now.atom.atom.first }
        ensures second { result.second ≡ self.now.atom.atom.second }
    {
        self.arguments
    }

    /// The patterns that count for the first argument, in the order of their bits.
    pub fn left_patterns(&self) -> &[Pattern]
        ensures patterns { map as_pattern result.now ≡ self.now.atom.lefts }
        ensures few { length result.now < 2 ^ 32 }
        ensures once { NoPatternTwice self.now.atom.lefts }
        ensures sides { (r : theory.Pair) → Contains self.now.atom.atom.pairs r
            → Contains self.now.atom.lefts r.0 }
    {
        &self.left_patterns
    }

    /// Those for the second argument.
    pub fn right_patterns(&self) -> &[Pattern]
        ensures patterns { map as_pattern result.now ≡ self.now.atom.rights }
        ensures few { length result.now < 2 ^ 32 }
        ensures once { NoPatternTwice self.now.atom.rights }
        ensures sides { (r : theory.Pair) → Contains self.now.atom.atom.pairs r
            → Contains self.now.atom.rights r.1 }
    {
        &self.right_patterns
    }

    /// The left patterns by numbers.
    pub fn lefts(&self) -> &[Numbered]
        ensures { AreNumbersOf self.now.atom.lefts result.now }
    {
        &self.lefts
    }

    /// The right patterns by numbers.
    pub fn rights(&self) -> &[Numbered]
        ensures { AreNumbersOf self.now.atom.rights result.now }
    {
        &self.rights
    }

    /// The label of an entry over states with these labels.
    pub fn step(&self, row: &Row, rows: &Rows, out: &mut [u64])
        requires columns { length row.now.symbol ≡ self.now.atom.atom.columns }
        requires within { (j : ℕ) → j < length row.now.kids
            → slice_index_or row.now.kids j 0 < length rows.now.labels }
        requires room { length out.old ≡ suc (words_for (length (marks_of self.now.atom))) }
        ensures { out.new ≡ entry_label (atom_rule self.now.atom (test_of self.now))
            rows.now.labels row.now }
    {
        let first = row.symbol(self.arguments.first);
        let second = row.symbol(self.arguments.second);
        self.write_patterns(first, second, row, rows, out);
        let right_base = self.lefts.len();
        let root = some_marked(&self.under, &self.rules, right_base, out);
        let base = right_base + self.rights.len();
        write_facts(
            self.rel,
            base,
            same_roots(first, second),
            root,
            row,
            rows,
            out,
        );
        put_first(out, row.presence() as u64);
    }

    /// Writes the bits of the patterns at a node with these roots.
    fn write_patterns(
        &self,
        first: Option<Sym>,
        second: Option<Sym>,
        row: &Row,
        rows: &Rows,
        out: &mut [u64],
    )
        requires within { (j : ℕ) → j < length row.now.kids
            → slice_index_or row.now.kids j 0 < length rows.now.labels }
        requires room { length out.old ≡ suc (words_for (length (marks_of self.now.atom))) }
        ensures { HasBits (pattern_bits self.now (as_column first) (as_column second)
            (labels_at rows.now.labels row.now.kids)) out.new }
    {
        clear(out);
        let right_base = self.lefts.len();
        write_rooted(&self.lefts, &self.left_roots, 0, first, row, rows, out);
        let roots = &self.right_roots;
        write_rooted(&self.rights, roots, right_base, second, row, rows, out);
        if !is_reduction(self.rel) {
            return;
        }
        let node = RootPair { first, second };
        add_reached(
            &self.lefts,
            &self.rights,
            &self.reach,
            &self.rules,
            &self.rule_roots,
            node,
            row,
            rows,
            out,
        );
    }

    /// Whether the relation holds of the terms whose label this is.
    pub fn accepts(&self, label: &[u64]) -> bool
        ensures { result ≡ atom_accepts self.now.atom label.now }
    {
        let right_base = self.lefts.len();
        let base = right_base + self.rights.len();
        match self.rel {
            Rel::Root => some_rule(&self.rules, right_base, label),
            Rel::Eq | Rel::Par | Rel::Star | Rel::Conv => has_mark(label, base),
            Rel::Step | Rel::Plus => has_mark(label, base + 1),
            Rel::Below => has_mark(label, base + 2),
        }
    }
}

/// Whether the relation is about reductions.
pub(crate) fn is_reduction(rel: Rel) -> bool
    ensures { result ≡ is_reaching (kind_for (as_rel rel)) }
{
    Which::of(rel).is_some()
}

/// The closure's rows where the relation is about reductions.
fn reach_for(
    alloc: Global,
    rel: Rel,
    lefts: usize,
    rights: usize,
    entries: &[ClosureEntry],
) -> Result<Reach, AllocError>
    requires left { lefts < 2 ^ 32 }
    requires right { rights < 2 ^ 32 }
    ensures { IfOk result (λ reach. is_reaching (kind_for (as_rel rel)) ≡ true
        → IsReach lefts rights (numbers_of entries.now) reach) }
{
    if !is_reduction(rel) {
        return Ok(Reach {
            firsts: Vec::new(alloc),
            seconds: Vec::new(alloc),
        });
    }
    reach_of(alloc, lefts, rights, entries)
}
