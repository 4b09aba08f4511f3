//! The keys of an atom's labels, whichever it is.
ghost use Rattle.std.specs.Prelude.{◌≡◌, IfOk};
ghost use Rattle.fort_theory.specs.Signatures.{Signature};
ghost use Rattle.fort_classes.specs.Keys.{GoesByEachKey};
ghost use Rattle.fort_label_keys.specs.ViewKeys.{keys_by};
ghost use Rattle.fort_context_closure.specs.AtomLabelsView.{rule_by, label_by, word_count as label_words};

use crate::masks::{normal_keys, relation_keys};
use fort_context_closure::AtomLabels;
use fort_label_keys::LabelKeys;
use fort_mark_keys::{MarkKeys, TermKeys, WholeKeys};
use fort_tuple_symbols::TupleSym;
use std::alloc::{AllocError, Global};

/// The keys of an atom's labels.
#[derive(Drop)]
pub enum AtomKeys<'a> {
    /// Two variables are related, or a variable is a normal form: a label under a mask.
    Marks(MarkKeys<'a>),
    /// Two variables are one context with pairs of an expression's relation in its holes. Each label
    /// is its own key, so no two states are one to a place.
    Whole(WholeKeys),
    /// A variable is a term: the number of a subterm where it is asked.
    Term(TermKeys<'a>),
}

impl<'a> AtomKeys<'a> {
    ghost use Rattle.fort_atom_keys.specs.KeysView.{view_of, key_of, words_of};

    /// Those of these labels, whichever signature the labels are over. They read the patterns and the
    /// term that the labels keep.
    pub fn of(alloc: Global, labels: &'a AtomLabels) -> Result<AtomKeys<'a>, AllocError>
        ensures goes { IfOk result (λ k. (sig : Signature)
            → GoesByEachKey sig (rule_by sig labels.now).columns (label_by sig labels.now)
            (keys_by (view_of k) (key_of k))) }
        ensures width { IfOk result (λ k. words_of k ≡ label_words labels.now) }
    {
        match labels {
            AtomLabels::Relation(bits) => Ok(AtomKeys::Marks(relation_keys(bits))),
            AtomLabels::Expression(bits) => {
                let width = bits.width();
                Ok(AtomKeys::Whole(WholeKeys { width }))
            }
            AtomLabels::Normal(bits) => Ok(AtomKeys::Marks(normal_keys(bits))),
            AtomLabels::Is(numbers) => Ok(AtomKeys::Term(TermKeys::new(alloc, numbers.term())?)),
        }
    }
}

impl<'a> LabelKeys for AtomKeys<'a> {
    ghost use Rattle.fort_atom_keys.specs.KeysView.{view_of, key_of, words_of};

    ghost view = { view_of };

    ghost key = { key_of };

    ghost word_count = { words_of };

    fn write_view(
        &self,
        symbol: &TupleSym,
        place: usize,
        words: &mut Vec<u64>,
    ) -> Result<(), AllocError> {
        match self {
            AtomKeys::Marks(keys) => keys.write_view(symbol, place, words),
            AtomKeys::Whole(keys) => keys.write_view(symbol, place, words),
            AtomKeys::Term(keys) => keys.write_view(symbol, place, words),
        }
    }

    fn write_key(
        &self,
        seen: &[u64],
        label: &[u64],
        words: &mut Vec<u64>,
    ) -> Result<(), AllocError> {
        match self {
            AtomKeys::Marks(keys) => keys.write_key(seen, label, words),
            AtomKeys::Whole(keys) => keys.write_key(seen, label, words),
            AtomKeys::Term(keys) => keys.write_key(seen, label, words),
        }
    }
}
