//! Local rules without means of their own to hold a part's targets.
use crate::part_rule::PartRule;
use fort_labels::{LocalRule, Rows};
use fort_tuple_symbols::Row;

/// A local rule whose part's targets are held entry by entry alone.
#[derive(Drop)]
pub struct ByEntry<'a, R: LocalRule>(pub &'a R);

impl<'a, R: LocalRule> LocalRule for ByEntry<'a, R> {
    ghost rule = { λ e. R.rule e.0.now };

    ghost word_count = { λ e. R.word_count e.0.now };

    ghost accepting = { λ e. R.accepting e.0.now };

    ghost tells = { λ e. R.tells e.0.now };

    ghost has_words = { λ e. R.has_words e.0.now };

    fn columns(&self) -> usize {
        self.0.columns()
    }

    fn width(&self) -> usize {
        self.0.width()
    }

    fn step(&self, row: &Row, rows: &Rows, out: &mut [u64]) {
        self.0.step(row, rows, out)
    }

    fn accepts(&self, words: &[u64]) -> bool {
        self.0.accepts(words)
    }
}

impl<'a, R: LocalRule> PartRule for ByEntry<'a, R> {}
