//! Sets of lists of numbers.
ghost use Rattle.std.specs.Prelude.{◌≡◌, ℕ, ◌<◌, ◌≤◌, [], ◌∷◌, ◌++◌, length, slice_index_or, OnOk, OnErr, MatchOption};

use indexmap::IndexSet;
use std::alloc::{AllocError, Global};
use std::marker::Model;

/// Lists of numbers, numbered as they came.
#[derive(Drop)]
pub struct ListSet {
    set: IndexSet<Vec<u32>>,
}

impl Model for ListSet {
    ghost use Rattle.std.specs.Prelude.{ℕ, List, map, vec_items};

    ghost Value = { List (List ℕ) };

    ghost view = { λ r. map vec_items r.set.keys };
}

impl ListSet {
    pub fn new(alloc: Global) -> ListSet
        ensures { result ≡ [] }
    {
        ListSet {
            set: IndexSet::new(alloc),
        }
    }

    /// Appends a list that isn't there yet.
    pub fn push(&mut self, list: Vec<u32>) -> Result<(), AllocError>
        requires { (q : ℕ) → q < length self.old → slice_index_or self.old q []
            ≡ list.items → ⊥ }
        ensures ok { OnOk result (self.new ≡ self.old ++ list.items ∷ []) }
        ensures err { OnErr result (self.new ≡ self.old) }
    {
        let _added = self.set.insert(list)?;
        Ok(())
    }

    /// The number of a list.
    pub fn find(&self, list: &[u32]) -> Option<usize>
        ensures { MatchOption result
            ((q : ℕ) → q < length self.now → slice_index_or self.now q [] ≡ list.now → ⊥)
            (λ q. (q < length self.now) × (slice_index_or self.now q [] ≡ list.now)) }
    {
        self.set.get_index_of(list)
    }

    /// The list of this number.
    pub fn get(&self, number: usize) -> Option<&Vec<u32>>
        ensures { MatchOption result (length self.now ≤ number)
            (λ l. l.now.items ≡ slice_index_or self.now number []) }
    {
        self.set.get_index(number)
    }

    pub fn len(&self) -> usize
        ensures { result ≡ length self.now }
    {
        self.set.len()
    }
}
