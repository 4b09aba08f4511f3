//! The labels of "the variable is a normal form", by bits.
ghost use Rattle.std.specs.Prelude.{◌≡◌, ℕ, ◌<◌, ◌≤◌, ◌^◌, suc, [], map, length, slice_index_or, Contains, IfOk};
ghost use Rattle.fort_theory.specs.Patterns as theory;
ghost use Rattle.fort_theory.specs.Sides.{IsIndexOf};
ghost use Rattle.fort_terms.specs.PatternView.{as_pattern};
ghost use Rattle.fort_alike.specs.Atoms.{NfKind};
ghost use Rattle.fort_tables.specs.BitRows.{words_for};
ghost use Rattle.fort_tables.specs.LabelRules.{entry_label};
ghost use Rattle.fort_alike.specs.AtomRules.{marks_of, atom_rule, atom_accepts};
ghost use Rattle.fort_label_bits.specs.NumberedView.{AreNumbersOf};
ghost use Rattle.fort_context_closure.specs.PlainAtoms.{no_closure, IsNormalAtomOf};
ghost use Rattle.fort_context_closure.specs.ReachRows.{NoPatternTwice};

use crate::side_places::{places_of_sides, some_side};
use fort_label_bits::{
    Numbered, all_have, clear, has_mark, is_there, number_patterns, put_first, put_mark,
    write_inside,
};
use fort_labels::Rows;
use fort_terms::{Pattern, System};
use fort_tuple_symbols::Row;
use std::alloc::{AllocError, Global};
use std::marker::Model;

/// The bits of the labels of normal forms. It is seen as the atom, without its signature and its rules' right sides, which no
/// label reads.
#[derive(Drop)]
pub struct NormalBits {
    patterns: Vec<Pattern>,
    /// The patterns by numbers.
    lefts: Vec<Numbered>,
    sides: Vec<u32>,
}

impl Model for NormalBits {
    ghost use Rattle.fort_alike.specs.ListedAtoms.{ListedAtom};
    ghost use Rattle.fort_context_closure.specs.NormalView.{normal_seen, IsNormalBits};

    ghost Value = { ListedAtom };

    ghost use Rattle.fort_context_closure.specs.AtomCode.{listed_code};

    ghost coded = { listed_code };

    ghost view = { normal_seen };

    ghost invariant = { IsNormalBits };
}

impl NormalBits {
    pub fn new(alloc: Global, system: &System, index: u32) -> Result<NormalBits, AllocError>
        requires { IsIndexOf system.now.rules index }
        ensures { IfOk result (IsNormalAtomOf system.now index) }
    {
        let patterns = system.left_patterns(alloc, index)?;
        let lefts = number_patterns(alloc, &patterns)?;
        let sides = places_of_sides(alloc, system.rules(index), &patterns)?;
        Ok(NormalBits {
            patterns,
            lefts,
            sides,
        })
    }

    pub fn columns(&self) -> usize
        ensures count { result ≡ self.now.atom.columns }
        ensures one { result ≡ 1 }
    {
        // read, so that what the struct keeps is known
        let _patterns = &self.patterns;
        1
    }

    /// The number of words.
    pub fn width(&self) -> usize
        ensures { result ≡ suc (words_for (length (marks_of self.now))) }
    {
        1 + (self.lefts.len() + 1 + 63) / 64
    }

    /// The patterns that count, in the order of their bits. The atom has one argument.
    pub fn patterns(&self) -> &[Pattern]
        ensures patterns { map as_pattern result.now ≡ self.now.lefts }
        ensures few { length result.now < 2 ^ 32 }
        ensures once { NoPatternTwice self.now.lefts }
        ensures sides { (r : theory.Pair) → Contains self.now.atom.pairs r
            → Contains self.now.lefts r.0 }
        ensures kind { self.now.atom.kind ≡ NfKind }
        ensures arguments { (self.now.atom.first ≡ 0) × (self.now.atom.second ≡ 0) }
        ensures one_side { self.now.rights ≡ [] }
    {
        &self.patterns
    }

    /// The patterns by numbers.
    pub fn lefts(&self) -> &[Numbered]
        ensures { AreNumbersOf self.now.lefts result.now }
    {
        &self.lefts
    }

    /// The label of an entry over states with these labels.
    pub fn step(&self, row: &Row, rows: &Rows, out: &mut [u64])
        requires columns { length row.now.symbol ≡ self.now.atom.columns }
        requires within { (j : ℕ) → j < length row.now.kids
            → slice_index_or row.now.kids j 0 < length rows.now.labels }
        requires room { length out.old ≡ suc (words_for (length (marks_of self.now))) }
        ensures { out.new ≡ entry_label (atom_rule self.now no_closure) rows.now.labels row.now }
    {
        let base = self.lefts.len();
        let root = row.sym().symbol(0);
        clear(out);
        write_inside(&self.lefts, 0, root, row, rows, out);
        let reducible = some_side(&self.sides, out);
        let normal = is_there(root) & (!reducible & all_have(base, row, rows));
        put_mark(out, base, normal);
        put_first(out, row.presence() as u64);
    }

    /// Whether the term whose label this is is a normal form.
    pub fn accepts(&self, label: &[u64]) -> bool
        ensures { result ≡ atom_accepts self.now label.now }
    {
        has_mark(label, self.lefts.len())
    }
}
