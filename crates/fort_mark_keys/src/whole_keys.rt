//! The keys of labels that are their own keys.
use fort_label_keys::LabelKeys;
use fort_tuple_symbols::TupleSym;
use std::alloc::AllocError;

/// Keys by which no two labels are one.
#[derive(Clone, Copy)]
pub struct WholeKeys {
    /// How many words a label has.
    pub width: usize,
}

impl LabelKeys for WholeKeys {
    ghost use Rattle.std.specs.Prelude.{[]};

    ghost view = { λ k f j. [] };

    ghost key = { λ k v w. w };

    ghost word_count = { λ k. k.width };

    fn write_view(
        &self,
        symbol: &TupleSym,
        place: usize,
        words: &mut Vec<u64>,
    ) -> Result<(), AllocError> {
        Ok(())
    }

    fn write_key(
        &self,
        seen: &[u64],
        label: &[u64],
        words: &mut Vec<u64>,
    ) -> Result<(), AllocError> {
        words.extend_from_slice(label)
    }
}
