//! What is asked of a child's label at a place under a tuple symbol.
ghost use Rattle.std.specs.Prelude.{◌≡◌, ℕ, ◌<◌, List, [], length, OnOk};
ghost use Rattle.fort_tables.specs.Tuples.{TupleSymbol};

use fort_tuple_symbols::TupleSym;
use std::alloc::AllocError;

/// Tells, of a child's label, all that the label of an entry asks of it. What is asked at a place is told by words, its view: places
/// with the same words ask the same, and labels with one key by them are one to such a place.
pub trait LabelKeys {
    /// What a place under a tuple symbol asks.
    ghost view: { Self → TupleSymbol → ℕ → List ℕ };

    /// The key of a label in a view.
    ghost key: { Self → List ℕ → List ℕ → List ℕ };

    /// How many words a label has.
    ghost word_count: { Self → ℕ };

    /// Writes the view of a place.
    fn write_view(
        &self,
        symbol: &TupleSym,
        place: usize,
        words: &mut Vec<u64>,
    ) -> Result<(), AllocError>
        requires place { place < 8 }
        requires empty { words.old.items ≡ [] }
        ensures { OnOk result (words.new.items ≡ view self.now symbol.now place) };

    /// Writes the key of a label in the view of some place.
    fn write_key(&self, seen: &[u64], label: &[u64], words: &mut Vec<u64>) -> Result<(), AllocError>
        requires view { (f : TupleSymbol) × (j : ℕ) × (seen.now ≡ view self.now f j) }
        requires width { length label.now ≡ word_count self.now }
        requires empty { words.old.items ≡ [] }
        ensures { OnOk result (words.new.items ≡ key self.now seen.now label.now) };
}
