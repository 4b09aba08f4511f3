//! Sets of lists of words.
ghost use Rattle.std.specs.Prelude.{◌≡◌, ℕ, ◌<◌, [], ◌∷◌, ◌++◌, length, slice_index_or, OnOk, OnErr, MatchOption};

use indexmap::IndexSet;
use std::alloc::{AllocError, Global};
use std::marker::Model;

/// Lists of words, numbered as they came.
#[derive(Drop)]
pub struct KeySet {
    set: IndexSet<Vec<u64>>,
}

impl Model for KeySet {
    ghost use Rattle.std.specs.Prelude.{ℕ, List, map, vec_items};

    ghost Value = { List (List ℕ) };

    ghost view = { λ r. map vec_items r.set.keys };
}

impl KeySet {
    pub fn new(alloc: Global) -> KeySet
        ensures { result ≡ [] }
    {
        KeySet {
            set: IndexSet::new(alloc),
        }
    }

    /// The allocator that the words' lists come from.
    pub(crate) fn allocator(&self) -> Global {
        *self.set.allocator()
    }

    /// Appends words that aren't there yet.
    pub fn push(&mut self, words: Vec<u64>) -> Result<(), AllocError>
        requires { (q : ℕ) → q < length self.old → slice_index_or self.old q []
            ≡ words.items → ⊥ }
        ensures ok { OnOk result (self.new ≡ self.old ++ words.items ∷ []) }
        ensures err { OnErr result (self.new ≡ self.old) }
    {
        let _added = self.set.insert(words)?;
        Ok(())
    }

    /// The number of the words.
    pub fn find(&self, words: &[u64]) -> Option<usize>
        ensures { MatchOption result
            ((q : ℕ) → q < length self.now → slice_index_or self.now q [] ≡ words.now → ⊥)
            (λ q. (q < length self.now) × (slice_index_or self.now q [] ≡ words.now)) }
    {
        self.set.get_index_of(words)
    }
}
