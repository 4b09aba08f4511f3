//! The keys of labels that tell the number of a subterm.
ghost use Rattle.std.specs.Prelude.{◌≡◌, ℕ, suc, ◌/◌, ◌<◌, map, length, false, ◌==◌, ◌&&◌, ◌||◌, nat_le, if◌then◌else◌, IfOk};
ghost use Rattle.std.specs.List.{list_any};
ghost use Rattle.fort_theory.specs.Trees.{trees};
ghost use Rattle.fort_tables.specs.BitRows.{words_for, bit_row, has_bit as has_bit_lem};
ghost use Rattle.fort_tuple_symbols.specs.Columns.{as_column};
ghost use Rattle.fort_alike.specs.Subterms.{subterms};
ghost use Rattle.fort_alike.specs.TermRule.{number_word as number_word_lem};
ghost use Rattle.fort_mark_keys.specs.AskedTerms.{is_child, stands_below, asks_number};
ghost use Rattle.fort_mark_keys.specs.TermKeysView.{listed_seen};

use crate::mark_keys::column;
use crate::subterms::push_subterms;
use fort_label_keys::LabelKeys;
use fort_labels::{has_bit, set_bit};
use fort_terms::{Sym, Term};
use fort_tuple_symbols::TupleSym;
use std::alloc::{AllocError, Global};

/// The keys of the labels of "the variable is this term": the number of a subterm where it is
/// asked.
#[derive(Drop)]
pub struct TermKeys<'a> {
    /// The subterms, each as often as it stands in the term; a number is one more than a place.
    listed: Vec<&'a Term>,
}

impl<'a> TermKeys<'a> {
    pub fn new(alloc: Global, term: &'a Term) -> Result<TermKeys<'a>, AllocError>
        ensures { IfOk result (λ k. listed_seen k ≡ subterms term.now) }
    {
        let mut listed = Vec::new(alloc);
        push_subterms(term, &mut listed)?;
        Ok(TermKeys { listed })
    }
}

/// Whether the child at a place is this term.
fn is_kid(child: &Term, place: usize, kids: &[Term]) -> bool
    ensures { result ≡ is_child child.now place (trees kids.now) }
{
    match kids.get(place) {
        None => false,
        Some(kid) => kid == child,
    }
}

/// Whether it is this child of a term with the root.
fn is_below(root: Option<Sym>, place: usize, child: &Term, parent: &Term) -> bool
    ensures { result ≡ stands_below (as_column root) place child.now parent.now }
{
    match root {
        None => false,
        Some(f) => parent.sym == f && is_kid(child, place, &parent.kids),
    }
}

/// Whether it is this child of some listed term with the root.
fn is_asked(listed: &[&Term], root: Option<Sym>, place: usize, child: &Term) -> bool
    ensures { result ≡ list_any (stands_below (as_column root) place child.now)
        (map (λ t. t.now) listed.now) }
{
    for parent in listed {
        if is_below(root, place, child, parent) {
            return true;
        }
    }
    false
}

/// Turns a bit on, where it is to be.
fn put_bit(out: &mut [u64], bit: usize, on: bool)
    requires { bit / 64 < length out.old }
    ensures { (q : ℕ) → has_bit_lem out.new q ≡ (((bit == q) && on) || has_bit_lem out.old q) }
{
    if on {
        set_bit(out, bit);
    }
}

/// Sets the bits of the numbers that are asked.
fn set_numbers(listed: &[&Term], root: Option<Sym>, place: usize, out: &mut [u64])
    requires room { length out.old ≡ words_for (suc (length listed.now)) }
    requires clear { (q : ℕ) → has_bit_lem out.old q ≡ false }
    ensures width { length out.new ≡ length out.old }
    ensures bits { (q : ℕ) → has_bit_lem out.new q ≡ (nat_le q (length listed.now)
        && asks_number (map (λ t. t.now) listed.now) (as_column root) place q) }
{
    for k in 0..listed.len() {
        let on = is_asked(listed, root, place, listed[k]);
        put_bit(out, k + 1, on);
    }
}

/// Writes which numbers are asked.
fn write_numbers(listed: &[&Term], root: Option<Sym>, place: usize, out: &mut [u64])
    requires room { length out.old ≡ words_for (suc (length listed.now)) }
    requires clear { (q : ℕ) → has_bit_lem out.old q ≡ false }
    ensures { out.new ≡ bit_row (suc (length listed.now))
        (asks_number (map (λ t. t.now) listed.now) (as_column root) place) }
{
    set_numbers(listed, root, place, out);
}

/// The second word of a label.
fn number_word(label: &[u64]) -> u64
    ensures { result ≡ number_word_lem label.now }
{
    label.get(1).copied().unwrap_or(0)
}

/// A number where it is asked.
fn number_in(seen: &[u64], number: u64) -> u64
    ensures { result ≡ (if has_bit_lem seen.now number then number else 0) }
{
    if has_bit(seen, number as usize) {
        number
    } else {
        0
    }
}

impl<'a> LabelKeys for TermKeys<'a> {
    ghost use Rattle.fort_mark_keys.specs.AskedTerms.{asked_numbers, number_seen};
    ghost use Rattle.fort_mark_keys.specs.TermKeysView.{listed_seen as listed_seen_lem};

    ghost view = { λ k. asked_numbers (listed_seen_lem k) };

    ghost key = { λ k. number_seen };

    ghost word_count = { λ k. 2 };

    fn write_view(
        &self,
        symbol: &TupleSym,
        place: usize,
        words: &mut Vec<u64>,
    ) -> Result<(), AllocError> {
        words.resize((self.listed.len() + 64) / 64, 0)?;
        let root = column(symbol, 0);
        write_numbers(&self.listed, root, place, words.as_mut_slice());
        Ok(())
    }

    fn write_key(
        &self,
        seen: &[u64],
        label: &[u64],
        words: &mut Vec<u64>,
    ) -> Result<(), AllocError> {
        words.push(number_in(seen, number_word(label)))?;
        Ok(())
    }
}
