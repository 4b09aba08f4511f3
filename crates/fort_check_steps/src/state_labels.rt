//! The labels of a part's states.
ghost use Rattle.std.specs.Prelude.{◌≡◌, ◌↔◌, ℕ, ◌<◌, ◌≤◌, [], ◌∷◌, ◌++◌, map, length, slice_index_or, vec_capacity, IfOk, IfSome, IsTrue};
ghost use Rattle.fort_tables.specs.Labels.{IsOverLabels};
ghost use Rattle.fort_tables.specs.LabelRules.{label_of, entry_label};
ghost use Rattle.fort_check_steps.specs.StateLabelsView.{HasSpace, IsAsSpacious};
ghost use Rattle.fort_check_steps.specs.WideKidsInside.{AreWideKids};

use crate::sparse_rows::SparseRows;
use fort_labels::{LocalRule, Rows};
use fort_tuple_symbols::Row;
use std::alloc::{AllocError, Global};
use std::marker::Model;

/// Labels of more words than these are wide.
pub(crate) const NARROW: usize = 8;

/// The numbers of an entry's children.
const NUMBERS: [u32; 8] = [0, 1, 2, 3, 4, 5, 6, 7];

/// The wide labels of an entry's children, with all their words.
#[derive(Drop)]
struct WideKids {
    rows: Rows,
    /// The states with these labels: entries that follow one another often have the same children.
    noted: Vec<u32>,
    /// By its way a label comes into the rows.
    label: Vec<u64>,
}

/// The labels of a part's states: narrow ones with all their words, and wide ones, most of whose words are zero, without these.
#[derive(Drop)]
pub struct StateLabels {
    wide: bool,
    dense: Rows,
    sparse: SparseRows,
    /// How many words a wide label has at most.
    widest: usize,
    kids: WideKids,
}

impl Model for StateLabels {
    ghost use Rattle.fort_check_steps.specs.StateLabelsView.{KeptLabels};

    ghost Value = { KeptLabels };

    ghost use Rattle.fort_check_steps.specs.StateLabelsInside.{kept_labels_in, AreStateLabels};

    ghost view = { kept_labels_in };

    ghost invariant = { AreStateLabels };
}

/// Makes this a label of so many zeros.
pub(crate) fn put_zeros(label: &mut Vec<u64>, width: usize)
    requires { width ≤ vec_capacity label.old }
    ensures len { length label.new.items ≡ width }
    ensures capacity { vec_capacity label.new ≡ vec_capacity label.old }
{
    label.clear();
    for _ in 0..width {
        label.push_reserved(0);
    }
}

/// As `==` does, which takes a call and more for the few words of a narrow label.
fn are_same_words(first: &[u64], second: &[u64]) -> bool
    ensures { IsTrue result ↔ (first.now ≡ second.now) }
{
    match (first.split_first(), second.split_first()) {
        (Some((x, first)), Some((y, second))) => *x == *y && are_same_words(first, second),
        (None, None) => true,
        _ => false,
    }
}

/// As `==` does, which takes a call and more for the few children of an entry.
fn are_same_states(first: &[u32], second: &[u32]) -> bool
    ensures { IsTrue result ↔ (first.now ≡ second.now) }
{
    match (first.split_first(), second.split_first()) {
        (Some((x, first)), Some((y, second))) => *x == *y && are_same_states(first, second),
        (None, None) => true,
        _ => false,
    }
}

/// Makes this a list of these states.
fn put_states(states: &[u32], noted: &mut Vec<u32>)
    requires { length states.now ≤ vec_capacity noted.old }
    ensures states { noted.new.items ≡ states.now }
    ensures capacity { vec_capacity noted.new ≡ vec_capacity noted.old }
{
    noted.clear();
    for q in states {
        noted.push_reserved(*q);
    }
}

/// Makes `kids` the labels of these states, by the way of `label`.
fn put_kids(sparse: &SparseRows, states: &[u32], label: &mut [u64], kids: &mut Rows)
    requires states { (j : ℕ) → j < length states.now → slice_index_or states.now j 0
        < length sparse.now.labels }
    requires few { length states.now ≤ kids.old.room }
    requires label { length label.old ≡ sparse.now.width }
    requires width { kids.old.width ≡ sparse.now.width }
    ensures labels { kids.new.labels ≡ map (λ q. slice_index_or sparse.now.labels q [])
        states.now }
    ensures width { kids.new.width ≡ kids.old.width }
    ensures room { kids.new.room ≡ kids.old.room }
    ensures space { kids.old.space ≤ kids.new.space }
{
    kids.clear();
    for q in states {
        sparse.write(*q, label);
        kids.push(label);
    }
}

/// Makes the rows of `kids` the labels of these states, which they may be already.
fn note_kids(sparse: &SparseRows, states: &[u32], kids: &mut WideKids)
    requires states { (j : ℕ) → j < length states.now → slice_index_or states.now j 0
        < length sparse.now.labels }
    requires few { length states.now ≤ 8 }
    requires kids { AreWideKids sparse.now kids.old }
    ensures kids { AreWideKids sparse.now kids.new }
    ensures noted { kids.new.noted.items ≡ states.now }
    ensures label_room { vec_capacity kids.new.label ≡ vec_capacity kids.old.label }
    ensures space { kids.old.rows.space ≤ kids.new.rows.space }
{
    if !are_same_states(kids.noted.as_slice(), states) {
        put_kids(sparse, states, kids.label.as_mut_slice(), &mut kids.rows);
        put_states(states, &mut kids.noted);
    }
}

/// Writes the label of an entry over wide labels: that of the entry whose children have the numbers of their labels in `kids`.
fn step_over<R: LocalRule>(
    rule: &R,
    row: &Row,
    sparse: &SparseRows,
    kids: &mut WideKids,
    out: &mut [u64],
)
    requires over { IsOverLabels (R.rule rule.now).signature (R.rule rule.now).columns
        (label_of (R.rule rule.now)) sparse.now.labels row.now }
    requires room { length out.old ≡ R.word_count rule.now }
    requires kids { AreWideKids sparse.now kids.old }
    ensures label { out.new ≡ entry_label (R.rule rule.now) sparse.now.labels row.now }
    ensures kids { AreWideKids sparse.now kids.new }
    ensures label_room { vec_capacity kids.new.label ≡ vec_capacity kids.old.label }
    ensures space { kids.old.rows.space ≤ kids.new.rows.space }
{
    let states = row.kids();
    note_kids(sparse, states, kids);
    let numbered = Row::new(row.sym(), &NUMBERS[..states.len()]);
    rule.step(&numbered, &kids.rows, out);
}

impl StateLabels {
    /// Room for so many words of narrow labels, and for so many wide labels of so many words together, of which none has more than
    /// the widest.
    pub fn new(
        alloc: Global,
        narrow: usize,
        wide: usize,
        most: usize,
        widest: usize,
    ) -> Result<StateLabels, AllocError>
        ensures narrow { IfOk result (λ r. narrow ≤ r.spaces.narrow) }
        ensures wide { IfOk result (λ r. wide ≤ r.spaces.wide) }
        ensures most { IfOk result (λ r. most ≤ r.spaces.most) }
        ensures widest { IfOk result (λ r. widest ≤ r.spaces.widest) }
    {
        let width = widest.max(1);
        Ok(StateLabels {
            wide: false,
            dense: Rows::new(alloc, 1, narrow)?,
            sparse: SparseRows::new(alloc, width, most, wide)?,
            widest,
            kids: WideKids {
                rows: Rows::new(alloc, width, NUMBERS.len())?,
                noted: Vec::with_capacity(alloc, NUMBERS.len())?,
                label: vec![in alloc; 0u64; width]?,
            },
        })
    }

    /// Takes all labels out; those to come have this width, and there is room for as many as the words suffice for.
    pub fn reset(&mut self, width: usize)
        requires some { 0 < width }
        requires widest { 8 < width → width ≤ self.old.spaces.widest }
        ensures labels { self.new.labels ≡ [] }
        ensures width { self.new.width ≡ width }
        ensures room { (n : ℕ) → HasSpace width n self.old.spaces → n ≤ self.new.room }
        ensures spaces { IsAsSpacious self.old.spaces self.new.spaces }
    {
        if width > NARROW {
            self.wide = true;
            self.sparse.reset(width);
            self.kids.rows.reset(width);
            self.kids.noted.clear();
            put_zeros(&mut self.kids.label, width);
        } else {
            self.wide = false;
            self.dense.reset(width);
        }
    }

    pub fn len(&self) -> usize
        ensures { result ≡ length self.now.labels }
    {
        if self.wide {
            self.sparse.len()
        } else {
            self.dense.len()
        }
    }

    /// All labels, where they are narrow.
    pub fn narrow(&self) -> Option<&Rows>
        ensures { IfSome result (λ r. r.now.labels ≡ self.now.labels) }
    {
        if self.wide { None } else { Some(&self.dense) }
    }

    /// Appends a label, for which there is room.
    pub fn push(&mut self, label: &[u64])
        requires width { length label.now ≡ self.old.width }
        requires room { length self.old.labels < self.old.room }
        ensures labels { self.new.labels ≡ self.old.labels ++ label.now ∷ [] }
        ensures width { self.new.width ≡ self.old.width }
        ensures room { self.new.room ≡ self.old.room }
        ensures spaces { IsAsSpacious self.old.spaces self.new.spaces }
    {
        if self.wide {
            self.sparse.push(label);
        } else {
            self.dense.push(label);
        }
    }

    /// Writes all words of a label.
    pub fn write(&self, q: u32, out: &mut [u64])
        requires state { q < length self.now.labels }
        requires width { length out.old ≡ self.now.width }
        requires label { length (slice_index_or self.now.labels q []) ≡ self.now.width }
        ensures { out.new ≡ slice_index_or self.now.labels q [] }
    {
        if self.wide {
            self.sparse.write(q, out);
        } else {
            out.copy_from_slice(self.dense.label(q));
        }
    }

    /// Whether a state's label is this one.
    pub fn is_label(&self, q: u32, label: &[u64]) -> bool
        requires { q < length self.now.labels }
        ensures { IsTrue result ↔ (slice_index_or self.now.labels q [] ≡ label.now) }
    {
        if self.wide {
            self.sparse.is_label(q, label)
        } else {
            are_same_words(self.dense.label(q), label)
        }
    }

    /// Writes the label of an entry over states with these labels.
    pub fn step<R: LocalRule>(&mut self, rule: &R, row: &Row, out: &mut [u64])
        requires over { IsOverLabels (R.rule rule.now).signature (R.rule rule.now).columns
            (label_of (R.rule rule.now)) self.old.labels row.now }
        requires room { length out.old ≡ R.word_count rule.now }
        ensures label { out.new ≡ entry_label (R.rule rule.now) self.old.labels row.now }
        ensures same { self.new ≡ self.old }
    {
        if self.wide {
            step_over(rule, row, &self.sparse, &mut self.kids, out);
        } else {
            rule.step(row, &self.dense, out);
        }
    }
}
