//! A rule that gives an entry its label.
ghost use Rattle.std.specs.Prelude.{◌≡◌, ℕ, ◌<◌, ◌≤◌, List, Bool, length};
ghost use Rattle.fort_tables.specs.Tuples.{TupleSymbol, presence};
ghost use Rattle.fort_tables.specs.Labels.{first_word, IsOverLabels, IsFullLabel};
ghost use Rattle.fort_tables.specs.LabelRules.{LabelRule, label_of, entry_label};

use crate::rows::Rows;
use fort_tuple_symbols::Row;

/// Gives an entry its label from its symbol and the labels of its states.
pub trait LocalRule {
    ghost rule: { Self → LabelRule };

    ghost word_count: { Self → ℕ };

    /// Which labels of tuples without absent columns are accepted.
    ghost accepting: { Self → List ℕ → Bool };

    fn columns(&self) -> usize
        ensures count { result ≡ (rule self.now).columns }
        ensures some { 0 < result }
        ensures narrow { result ≤ 16 };

    fn width(&self) -> usize
        ensures count { result ≡ word_count self.now }
        ensures some { 0 < result };

    /// Writes the label of an entry over states with these labels.
    fn step(&self, row: &Row, rows: &Rows, out: &mut [u64])
        requires over { IsOverLabels (rule self.now).signature (rule self.now).columns
            (label_of (rule self.now)) rows.now.labels row.now }
        requires room { length out.old ≡ word_count self.now }
        ensures { out.new ≡ entry_label (rule self.now) rows.now.labels row.now };

    /// Whether the tuples with this label, which have every column present, are accepted.
    fn accepts(&self, words: &[u64]) -> bool
        requires { IsFullLabel (rule self.now).signature (rule self.now).columns
            (label_of (rule self.now)) words.now }
        ensures { result ≡ accepting self.now words.now };

    ghost tells: { (s : Self) (f : TupleSymbol) (ws : List (List ℕ))
        → first_word ((rule s).step f ws) ≡ presence f };

    ghost has_words: { (s : Self) (f : TupleSymbol) (ws : List (List ℕ))
        → length ((rule s).step f ws) ≡ word_count s };
}
