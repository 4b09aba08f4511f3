//! What gives optional tuples labels.
ghost use Rattle.std.specs.Prelude.{◌≡◌, ℕ, ◌<◌, ◌≤◌, List, Bool, length, IfOk};
ghost use Rattle.fort_theory.specs.Signatures as theory;
ghost use Rattle.fort_tables.specs.Labels.{Labelling, TellsPresence, HasWidth, IsFullLabel, IsOverLabels, GivesLabel};

use crate::rows::Rows;
use fort_tuple_symbols::Row;
use std::alloc::{AllocError, Global};

/// Gives each optional tuple over the signatures that it serves a label, by its root and its children's labels.
pub trait Labeller {
    /// What it keeps from one entry to the next.
    type Memo: Drop;

    /// Which signatures it serves.
    ghost serves: { Self → theory.Signature → Type 0 };

    ghost column_count: { Self → ℕ };

    ghost word_count: { Self → ℕ };

    /// The label of an optional tuple; its first word is the presence.
    ghost label: { Self → Labelling };

    /// Which labels of tuples without absent columns are accepted.
    ghost accepting: { Self → List ℕ → Bool };

    /// What is kept is right for this labeller.
    ghost fits: { Self → Self.Memo → Type 0 };

    fn columns(&self) -> usize
        ensures count { result ≡ column_count self.now }
        ensures some { 0 < result }
        ensures narrow { result ≤ 16 };

    fn width(&self) -> usize
        ensures count { result ≡ word_count self.now }
        ensures some { 0 < result };

    /// What is kept before the first entry.
    fn memo(&self, alloc: Global) -> Result<Self::Memo, AllocError>
        ensures { IfOk result (fits self.now) };

    /// The label of a tuple from its root and the labels of its children.
    fn step(&self, row: &Row, rows: &Rows, memo: &mut Self::Memo, out: &mut [u64])
        requires served { (sig : theory.Signature) × serves self.now sig
            × IsOverLabels sig (column_count self.now) (label self.now) rows.now.labels row.now }
        requires kept { fits self.now memo.old }
        requires room { length out.old ≡ word_count self.now }
        ensures kept { fits self.now memo.new }
        ensures gives { (sig : theory.Signature) → serves self.now sig
            → IsOverLabels sig (column_count self.now) (label self.now) rows.now.labels row.now
            → GivesLabel sig (column_count self.now) (label self.now) rows.now.labels row.now
            out.new };

    /// Whether the tuples with this label, which have every column present, are accepted.
    fn accepts(&self, words: &[u64]) -> bool
        requires { (sig : theory.Signature) × serves self.now sig
            × IsFullLabel sig (column_count self.now) (label self.now) words.now }
        ensures { result ≡ accepting self.now words.now };

    ghost tells_presence: { (s : Self) (sig : theory.Signature) → serves s sig
        → TellsPresence sig (column_count s) (label s) };

    ghost has_width: { (s : Self) (sig : theory.Signature) → serves s sig
        → HasWidth sig (column_count s) (label s) (word_count s) };
}
