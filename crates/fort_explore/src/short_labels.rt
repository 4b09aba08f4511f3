//! Sets of labels of four words.
ghost use Rattle.std.specs.Prelude.{◌≡◌, ℕ, ◌<◌, [], ◌∷◌, ◌++◌, length, slice_index, slice_index_or, OnOk, OnErr, MatchOption};
ghost use Rattle.fort_explore.specs.ShortLabels.{four_words, padded};

use indexmap::IndexSet;
use std::alloc::{AllocError, Global};
use std::marker::Model;

/// Four words, kept where they stand: no allocation, and they are compared at once.
#[derive(Clone, Copy, PartialEq, Eq, Hash)]
pub struct Words {
    first: u64,
    second: u64,
    third: u64,
    fourth: u64,
}

fn word(label: &[u64], k: usize) -> u64
    ensures { result ≡ slice_index label.now k }
{
    label.get(k).copied().unwrap_or(0)
}

impl Words {
    /// The first four words of a label, or zeros behind its own.
    pub fn new(label: &[u64]) -> Words
        ensures { four_words result ≡ padded label.now }
    {
        Words {
            first: word(label, 0),
            second: word(label, 1),
            third: word(label, 2),
            fourth: word(label, 3),
        }
    }
}

/// Labels of four words, numbered as they came.
#[derive(Drop)]
pub struct ShortLabels {
    set: IndexSet<Words>,
}

impl Model for ShortLabels {
    ghost use Rattle.std.specs.Prelude.{ℕ, List, map};
    ghost use Rattle.fort_explore.specs.ShortLabels.{four_words};

    ghost Value = { List (List ℕ) };

    ghost view = { λ r. map four_words r.set.keys };
}

impl ShortLabels {
    pub fn new(alloc: Global) -> ShortLabels
        ensures { result ≡ [] }
    {
        ShortLabels {
            set: IndexSet::new(alloc),
        }
    }

    /// Appends a label that isn't there yet.
    pub fn push(&mut self, label: Words) -> Result<(), AllocError>
        requires { (q : ℕ) → q < length self.old → slice_index_or self.old q []
            ≡ four_words label → ⊥ }
        ensures ok { OnOk result (self.new ≡ self.old ++ four_words label ∷ []) }
        ensures err { OnErr result (self.new ≡ self.old) }
    {
        let _added = self.set.insert(label)?;
        Ok(())
    }

    /// The number of a label.
    pub fn find(&self, label: &Words) -> Option<usize>
        ensures { MatchOption result
            ((q : ℕ) → q < length self.now → slice_index_or self.now q [] ≡ four_words label.now
            → ⊥)
            (λ q. (q < length self.now)
            × (slice_index_or self.now q [] ≡ four_words label.now)) }
    {
        self.set.get_index_of(label)
    }
}
