//! The keys of labels that have a bit for each mark.
ghost use Rattle.std.specs.Prelude.{◌≡◌, [], None, length, get_or};
ghost use Rattle.fort_tuple_symbols.specs.Columns.{as_column};
ghost use Rattle.fort_relations.specs.RelView.{as_rel};
ghost use Rattle.fort_alike.specs.Atoms.{NfKind, kind_for};
ghost use Rattle.fort_mark_keys.specs.AskedMarks.{asked_mask};
ghost use Rattle.fort_mark_keys.specs.MarkKeysView.{keys_seen, mark_words, IsOfPatterns};

use crate::asked_facts::{are_asked, asked_count, fact_count, put_marks};
use crate::masked::write_masked;
use crate::side::Side;
use fort_label_bits::{Arguments, clear, put_first};
use fort_label_keys::LabelKeys;
use fort_relations::Rel;
use fort_terms::Sym;
use fort_tuple_symbols::TupleSym;
use std::alloc::AllocError;

/// The keys of the labels of an atom that relates two terms, or of normal forms: the label under a
/// mask of the marks that are asked.
#[derive(Drop)]
pub struct MarkKeys<'a> {
    /// None for normal forms.
    rel: Option<Rel>,
    arguments: Arguments,
    left: Side<'a>,
    right: Side<'a>,
}

/// The symbol in a column, and none behind the last one.
pub(crate) fn column(symbol: &TupleSym, at: usize) -> Option<Sym>
    ensures { as_column result ≡ get_or symbol.now at None }
{
    if at < symbol.len() {
        symbol.symbol(at)
    } else {
        None
    }
}

impl<'a> MarkKeys<'a> {
    /// Those of normal forms.
    pub fn normal(left: Side<'a>) -> MarkKeys<'a>
        ensures { IsOfPatterns NfKind 0 0 left.entry [] (keys_seen result) }
    {
        MarkKeys {
            rel: None,
            arguments: Arguments {
                columns: 1,
                first: 0,
                second: 0,
            },
            left,
            right: Side::new(&[], &[]),
        }
    }

    /// Those of an atom that relates two terms.
    pub fn related(rel: Rel, arguments: Arguments, left: Side<'a>, right: Side<'a>) -> MarkKeys<'a>
        ensures { IsOfPatterns (kind_for (as_rel rel)) arguments.first arguments.second
            left.entry right.entry (keys_seen result) }
    {
        MarkKeys {
            rel: Some(rel),
            arguments,
            left,
            right,
        }
    }

    /// The number of words of a label, and of a mask.
    pub fn width(&self) -> usize
        ensures { result ≡ mark_words (keys_seen self.now) }
    {
        1 + (self.left.len() + self.right.len() + fact_count(self.rel) + 63) / 64
    }

    /// Writes the mask of a place.
    fn write_mask(&self, symbol: &TupleSym, place: usize, out: &mut [u64])
        requires room { length out.old ≡ mark_words (keys_seen self.now) }
        ensures { out.new ≡ asked_mask (keys_seen self.now) symbol.now place }
    {
        let first = column(symbol, self.arguments.first);
        let second = column(symbol, self.arguments.second);
        clear(out);
        let right_base = self.left.len();
        self.left.put_asked(0, first, place, out);
        self.right.put_asked(right_base, second, place, out);
        let base = right_base + self.right.len();
        let on = are_asked(self.rel, first, second);
        put_marks(asked_count(self.rel), base, on, out);
        put_first(out, 0);
    }
}

impl<'a> LabelKeys for MarkKeys<'a> {
    ghost use Rattle.fort_mark_keys.specs.MaskedWords.{masked};
    ghost use Rattle.fort_mark_keys.specs.AskedMarks.{asked_mask as asked_mask_lem};
    ghost use Rattle.fort_mark_keys.specs.MarkKeysView.{keys_seen as keys_seen_lem, mark_words as mark_words_lem};

    ghost view = { λ k. asked_mask_lem (keys_seen_lem k) };

    ghost key = { λ k. masked };

    ghost word_count = { λ k. mark_words_lem (keys_seen_lem k) };

    fn write_view(
        &self,
        symbol: &TupleSym,
        place: usize,
        words: &mut Vec<u64>,
    ) -> Result<(), AllocError> {
        words.resize(self.width(), 0)?;
        self.write_mask(symbol, place, words.as_mut_slice());
        Ok(())
    }

    fn write_key(
        &self,
        seen: &[u64],
        label: &[u64],
        words: &mut Vec<u64>,
    ) -> Result<(), AllocError> {
        write_masked(seen, label, words)
    }
}
