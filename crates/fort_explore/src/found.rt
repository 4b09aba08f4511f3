//! The labels that were found, and the entries that gave them.
ghost use Rattle.std.specs.Prelude.{◌≡◌, ℕ, ◌+◌, ◌<◌, ◌≤◌, List, [], ◌∷◌, ◌++◌, Bool, map, length, slice_index_or, IfOk, OnOk, MatchOption};
ghost use Rattle.fort_theory.specs.Signatures as theory;
ghost use Rattle.fort_tables.specs.Entries.{AreNodes};
ghost use Rattle.fort_explore.specs.Exploring.{IsReady, IsPlaced};

use crate::labels::LabelSet;
use fort_labels::{Labeller, Rows};
use fort_lockstep::Steps;
use fort_table::Dag;
use fort_tuple_symbols::Row;
use std::alloc::{AllocError, Global};
use std::sync::ledger::Ledger;

/// Room for so many words of labels at first, 8 MiB of addresses: what isn't written takes no memory,
/// and the labels of most tables are never copied as they grow.
const FIRST_ROOM: usize = 1 << 20;

/// The labels so far, and for each the entry that gave it first.
pub struct Found {
    pub labels: Rows,
    /// The same labels, by which a label's number is found.
    pub numbers: LabelSet,
    pub firsts: Dag,
    /// The number that was found last.
    last: u32,
}

impl Drop for Found {
    /// A function of its own: where labels are let go, one call is proved, and not one for each part.
    fn drop(self) {
        let Found {
            labels: _labels,
            numbers: _numbers,
            firsts: _firsts,
            last: _last,
        } = self;
    }
}

impl Found {
    /// No labels, of so many words.
    pub fn new(alloc: Global, width: usize) -> Result<Found, AllocError>
        requires { 0 < width }
        ensures labels { IfOk result (λ f. f.labels.labels ≡ []) }
        ensures width { IfOk result (λ f. f.labels.width ≡ width) }
        ensures numbers { IfOk result (λ f. f.numbers ≡ []) }
        ensures firsts { IfOk result (λ f. f.firsts ≡ []) }
    {
        Ok(Found {
            labels: Rows::new(alloc, width, FIRST_ROOM / width)?,
            numbers: LabelSet::new(alloc),
            firsts: Dag::new(alloc),
            last: 0,
        })
    }

    /// Notes a new label, with the entry that gives it.
    fn note(&mut self, alloc: Global, row: &Row, label: &[u64]) -> Result<(), AllocError>
        requires width { length label.now ≡ self.old.labels.width }
        requires same { self.old.numbers ≡ self.old.labels.labels }
        requires absent { (q : ℕ) → q < length self.old.numbers → slice_index_or self.old.numbers q
            [] ≡ label.now → ⊥ }
        requires nodes { (sig : theory.Signature) × (columns : ℕ) × AreNodes sig columns
            (self.old.firsts ++ row.now ∷ []) }
        ensures numbers { OnOk result (self.new.numbers ≡ self.old.numbers ++ label.now ∷ []) }
        ensures labels { OnOk result (self.new.labels.labels
            ≡ self.old.labels.labels ++ label.now ∷ []) }
        ensures width { OnOk result (self.new.labels.width ≡ self.old.labels.width) }
        ensures firsts { OnOk result (self.new.firsts ≡ self.old.firsts ++ row.now ∷ []) }
    {
        self.labels.make_room()?;
        self.numbers.push(alloc, label)?;
        self.firsts.push(*row)?;
        self.labels.push(label);
        Ok(())
    }

    /// The number of a label. The one found last is tried first: entries that stand side by side often give one label.
    fn find(&mut self, label: &[u64]) -> Option<usize>
        requires same { self.old.numbers ≡ self.old.labels.labels }
        ensures labels { self.new.labels ≡ self.old.labels }
        ensures numbers { self.new.numbers ≡ self.old.numbers }
        ensures firsts { self.new.firsts ≡ self.old.firsts }
        ensures found { MatchOption result
            ((q : ℕ) → q < length self.old.numbers → slice_index_or self.old.numbers q []
            ≡ label.now → ⊥)
            (λ q. (q < length self.old.numbers)
            × (slice_index_or self.old.numbers q [] ≡ label.now)) }
    {
        if (self.last as usize) < self.labels.len() && self.labels.label(self.last) == label {
            return Some(self.last as usize);
        }
        let q = self.numbers.find(label)?;
        if let Ok(last) = u32::try_from(q) {
            self.last = last;
        }
        Some(q)
    }

    /// Takes the entries out.
    pub fn take_firsts(&mut self, alloc: Global) -> Dag
        ensures { result ≡ self.old.firsts }
    {
        std::mem::replace(&mut self.firsts, Dag::new(alloc))
    }
}

/// The number of the label that an entry gives; `out` is written over. It takes one step of the labeller.
pub fn place_of<G: Ledger, L: Labeller>(
    alloc: Global,
    labeller: &L,
    found: &mut Found,
    row: &Row,
    memo: &mut L::Memo,
    out: &mut [u64],
    steps: &mut Steps<G>,
) -> Result<usize, AllocError>
    requires ready { (sig : theory.Signature) × L.serves labeller.now sig
        × IsReady sig (L.column_count labeller.now) (L.label labeller.now)
        found.old.firsts found.old.labels.labels row.now }
    requires same { found.old.numbers ≡ found.old.labels.labels }
    requires width { found.old.labels.width ≡ L.word_count labeller.now }
    requires kept { L.fits labeller.now memo.old }
    requires room { length out.old ≡ L.word_count labeller.now }
    ensures kept { L.fits labeller.now memo.new }
    ensures placed { IfOk result (λ q. (sig : theory.Signature) → L.serves labeller.now sig
        → IsReady sig (L.column_count labeller.now) (L.label labeller.now)
        found.old.firsts found.old.labels.labels row.now
        → IsPlaced sig (L.column_count labeller.now) (L.label labeller.now)
        found.old.labels.labels found.new.labels.labels
        found.old.firsts found.new.firsts row.now q) }
    ensures same { OnOk result (found.new.numbers ≡ found.new.labels.labels) }
    ensures width { OnOk result (found.new.labels.width ≡ found.old.labels.width) }
    ensures steps { steps.new ≡ steps.old + 1 }
{
    steps.tick();
    labeller.step(row, &found.labels, memo, out);
    match found.find(out) {
        Some(q) => Ok(q),
        None => {
            let q = found.labels.len();
            found.note(alloc, row, out)?;
            Ok(q)
        }
    }
}
