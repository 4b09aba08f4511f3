//! Labels by a local rule.
use crate::labeller::Labeller;
use crate::rows::Rows;
use crate::rule::LocalRule;
use fort_tuple_symbols::Row;
use std::alloc::{AllocError, Global};

/// The labeller of a local rule: it gives a tuple the label of the rule.
#[derive(Drop)]
pub struct ByRule<'a, R: LocalRule>(pub &'a R);

impl<'a, R: LocalRule> Labeller for ByRule<'a, R> {
    type Memo = ();

    ghost use Rattle.std.specs.Prelude.{◌≡◌, ℕ, List, Bool};
    ghost use Rattle.fort_tables.specs.LabelRules.{label_of};
    ghost use Rattle.fort_tables.proofs.LabelRuleLaws.{TellsPresence-rule, HasWidth-rule};

    ghost serves = { λ s sig. sig ≡ (R.rule s.0.now).signature };

    ghost column_count = { λ s. (R.rule s.0.now).columns };

    ghost word_count = { λ s. R.word_count s.0.now };

    ghost label = { λ s. label_of (R.rule s.0.now) };

    ghost accepting = { λ s. R.accepting s.0.now };

    ghost tells_presence = { λ s sig _. TellsPresence-rule sig (R.rule s.0.now) (R.tells s.0.now) };

    ghost has_width = { λ s sig _. HasWidth-rule sig (R.rule s.0.now) (R.word_count s.0.now)
        (R.has_words s.0.now) };

    ghost fits = { λ _ _. Unit {0} };

    fn columns(&self) -> usize {
        self.0.columns()
    }

    fn width(&self) -> usize {
        self.0.width()
    }

    fn memo(&self, _alloc: Global) -> Result<(), AllocError> {
        Ok(())
    }

    fn step(&self, row: &Row, rows: &Rows, _memo: &mut (), out: &mut [u64]) {
        self.0.step(row, rows, out)
    }

    fn accepts(&self, label: &[u64]) -> bool {
        self.0.accepts(label)
    }
}
