//! Sets of lists of digits, by their hashes.
ghost use Rattle.std.specs.Prelude.{◌≡◌, ℕ, ◌<◌, [], ◌∷◌, ◌++◌, length, slice_index_or, OnOk, OnErr, MatchOption};

use indexmap::IndexSet;
use std::alloc::{AllocError, Global};
use std::marker::Model;

/// Lists of digits in the order in which they came.
#[derive(Drop)]
pub struct DigitSet {
    set: IndexSet<Vec<u32>>,
}

impl Model for DigitSet {
    ghost use Rattle.std.specs.Prelude.{ℕ, List, map, vec_items};

    ghost Value = { List (List ℕ) };

    ghost view = { λ r. map vec_items r.set.keys };
}

impl DigitSet {
    pub fn new(alloc: Global) -> DigitSet
        ensures { result ≡ [] }
    {
        DigitSet {
            set: IndexSet::new(alloc),
        }
    }

    /// Appends digits that aren't there yet.
    pub fn push(&mut self, digits: Vec<u32>) -> Result<(), AllocError>
        requires { (q : ℕ) → q < length self.old → slice_index_or self.old q []
            ≡ digits.items → ⊥ }
        ensures ok { OnOk result (self.new ≡ self.old ++ digits.items ∷ []) }
        ensures err { OnErr result (self.new ≡ self.old) }
    {
        let _added = self.set.insert(digits)?;
        Ok(())
    }

    /// The place of the digits.
    // its frame is large, and where tuple symbols have few numbers it isn't needed
    #[inline(never)]
    pub fn find(&self, digits: &[u32]) -> Option<usize>
        ensures { MatchOption result
            ((q : ℕ) → q < length self.now → slice_index_or self.now q [] ≡ digits.now → ⊥)
            (λ q. (q < length self.now) × (slice_index_or self.now q [] ≡ digits.now)) }
    {
        self.set.get_index_of(digits)
    }
}
