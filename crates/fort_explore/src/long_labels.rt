//! Sets of labels of any width.
ghost use Rattle.std.specs.Prelude.{◌≡◌, ℕ, ◌<◌, [], ◌∷◌, ◌++◌, length, slice_index_or, OnOk, OnErr, MatchOption};

use indexmap::IndexSet;
use std::alloc::{AllocError, Global};
use std::marker::Model;

/// Labels, numbered as they came.
#[derive(Drop)]
pub struct LongLabels {
    set: IndexSet<Vec<u64>>,
}

impl Model for LongLabels {
    ghost use Rattle.std.specs.Prelude.{ℕ, List, map, vec_items};

    ghost Value = { List (List ℕ) };

    ghost view = { λ r. map vec_items r.set.keys };
}

impl LongLabels {
    pub fn new(alloc: Global) -> LongLabels
        ensures { result ≡ [] }
    {
        LongLabels {
            set: IndexSet::new(alloc),
        }
    }

    /// Appends a label that isn't there yet.
    pub fn push(&mut self, label: Vec<u64>) -> Result<(), AllocError>
        requires { (q : ℕ) → q < length self.old → slice_index_or self.old q []
            ≡ label.items → ⊥ }
        ensures ok { OnOk result (self.new ≡ self.old ++ label.items ∷ []) }
        ensures err { OnErr result (self.new ≡ self.old) }
    {
        let _added = self.set.insert(label)?;
        Ok(())
    }

    /// The number of a label.
    // its frame is large, and short labels don't need it
    #[inline(never)]
    pub fn find(&self, label: &[u64]) -> Option<usize>
        ensures { MatchOption result
            ((q : ℕ) → q < length self.now → slice_index_or self.now q [] ≡ label.now → ⊥)
            (λ q. (q < length self.now) × (slice_index_or self.now q [] ≡ label.now)) }
    {
        self.set.get_index_of(label)
    }
}
