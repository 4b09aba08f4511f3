//! Sets of labels of one width.
ghost use Rattle.std.specs.Prelude.{◌≡◌, ℕ, ◌<◌, [], ◌∷◌, ◌++◌, length, slice_index_or, OnOk, OnErr, MatchOption};
ghost use Rattle.fort_explore.specs.LabelsInside.{labels_in, AreLabelsIn};

use crate::long_labels::LongLabels;
use crate::short_labels::{ShortLabels, Words};
use std::alloc::{AllocError, Global};
use std::marker::Model;

/// Labels of one width, the short ones, of up to four words, where they are compared and hashed without a look elsewhere.
#[derive(Drop)]
pub enum Storage {
    Short(ShortLabels),
    Long(LongLabels),
}

/// Labels of one width, numbered as they came.
#[derive(Drop)]
pub struct LabelSet {
    width: usize,
    storage: Storage,
}

impl Model for LabelSet {
    ghost use Rattle.std.specs.Prelude.{ℕ, List};

    ghost Value = { List (List ℕ) };

    ghost use Rattle.fort_explore.specs.LabelsInside.{labels_in, AreLabelsIn};

    ghost view = { λ r. labels_in r.width r.storage };

    ghost invariant = { λ r. AreLabelsIn r.width r.storage };
}

impl Storage {
    /// No labels, of this width.
    fn new(alloc: Global, width: usize) -> Storage
        ensures fit { AreLabelsIn width result }
        ensures none { labels_in width result ≡ [] }
    {
        if width <= 4 {
            Storage::Short(ShortLabels::new(alloc))
        } else {
            Storage::Long(LongLabels::new(alloc))
        }
    }

    /// Appends a label that isn't there yet.
    fn push(&mut self, alloc: Global, label: &[u64]) -> Result<(), AllocError>
        requires fit { AreLabelsIn (length label.now) self.old }
        requires absent { (q : ℕ) → q < length (labels_in (length label.now) self.old)
            → slice_index_or (labels_in (length label.now) self.old) q [] ≡ label.now → ⊥ }
        ensures fit { AreLabelsIn (length label.now) self.new }
        ensures ok { OnOk result (labels_in (length label.now) self.new
            ≡ labels_in (length label.now) self.old ++ label.now ∷ []) }
        ensures err { OnErr result (labels_in (length label.now) self.new
            ≡ labels_in (length label.now) self.old) }
    {
        match self {
            Storage::Short(set) => set.push(Words::new(label)),
            Storage::Long(set) => set.push(Vec::from_slice(alloc, label)?),
        }
    }
}

impl LabelSet {
    pub fn new(alloc: Global) -> LabelSet
        ensures { result ≡ [] }
    {
        LabelSet {
            width: 0,
            storage: Storage::new(alloc, 0),
        }
    }

    /// Appends a label that isn't there yet, and is as wide as those that are.
    pub fn push(&mut self, alloc: Global, label: &[u64]) -> Result<(), AllocError>
        requires width { (q : ℕ) → q < length self.old
            → length (slice_index_or self.old q []) ≡ length label.now }
        requires absent { (q : ℕ) → q < length self.old → slice_index_or self.old q []
            ≡ label.now → ⊥ }
        ensures ok { OnOk result (self.new ≡ self.old ++ label.now ∷ []) }
        ensures err { OnErr result (self.new ≡ self.old) }
    {
        // The first label tells the width.
        if label.len() != self.width {
            self.width = label.len();
            self.storage = Storage::new(alloc, label.len());
        }
        self.storage.push(alloc, label)
    }

    /// The number of a label.
    pub fn find(&self, label: &[u64]) -> Option<usize>
        ensures { MatchOption result
            ((q : ℕ) → q < length self.now → slice_index_or self.now q [] ≡ label.now → ⊥)
            (λ q. (q < length self.now) × (slice_index_or self.now q [] ≡ label.now)) }
    {
        if label.len() != self.width {
            return None;
        }
        match &self.storage {
            Storage::Short(set) => set.find(&Words::new(label)),
            Storage::Long(set) => set.find(label),
        }
    }
}
