//! The labels of an atom over a signature, as a rule.
use crate::atom_labels::AtomLabels;
use fort_labels::{LocalRule, Rows};
use fort_terms::Signature;
use fort_tuple_symbols::Row;

/// The labels of an atom, with the signature of the tuples that they are given to.
#[derive(Clone, Copy)]
pub struct SignedAtom<'a> {
    pub signature: &'a Signature,
    pub labels: &'a AtomLabels,
}

impl<'a> LocalRule for SignedAtom<'a> {
    ghost use Rattle.fort_context_closure.specs.AtomLabelsView.{rule_by, word_count as word_count_lem, accepted_by};
    ghost use Rattle.fort_context_closure.specs.SignedAtoms.{tells_by, has_words_by};

    ghost rule = { λ a. rule_by a.signature.now a.labels.now };

    ghost word_count = { λ a. word_count_lem a.labels.now };

    ghost accepting = { λ a. accepted_by a.signature.now a.labels.now };

    ghost tells = { λ a. tells_by a.signature.now a.labels.now };

    ghost has_words = { λ a. has_words_by a.signature.now a.labels.now };

    fn columns(&self) -> usize {
        self.labels.columns()
    }

    fn width(&self) -> usize {
        self.labels.width()
    }

    fn step(&self, row: &Row, rows: &Rows, out: &mut [u64]) {
        match self.labels {
            AtomLabels::Relation(bits) => bits.step(row, rows, out),
            AtomLabels::Expression(labels) => labels.step(row, rows, out),
            AtomLabels::Normal(bits) => bits.step(row, rows, out),
            AtomLabels::Is(labels) => labels.step(row, rows, out),
        }
    }

    fn accepts(&self, words: &[u64]) -> bool {
        match self.labels {
            AtomLabels::Relation(bits) => bits.accepts(words),
            AtomLabels::Expression(labels) => labels.accepts(words),
            AtomLabels::Normal(bits) => bits.accepts(words),
            AtomLabels::Is(labels) => labels.accepts(words),
        }
    }
}
