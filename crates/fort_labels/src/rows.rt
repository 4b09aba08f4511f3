//! Lists of labels of one width.
ghost use Rattle.std.specs.Prelude.{◌≡◌, ℕ, ◌+◌, ◌*◌, ◌<◌, ◌≤◌, List, [], ◌∷◌, ◌++◌, length, slice_index_or, IfOk, OnOk, OnErr};

use std::alloc::{AllocError, Global};
use std::marker::Model;

/// A list of labels of one width, in one piece: label q stands at number q, as that of state q.
#[derive(Drop)]
pub struct Rows {
    width: usize,
    room: usize,
    count: usize,
    words: Vec<u64>,
}

impl Model for Rows {
    ghost use Rattle.fort_labels.specs.RowsView.{Labels};

    ghost Value = { Labels };

    ghost use Rattle.fort_labels.specs.RowsInside.{labels_in, AreRows};

    ghost view = { labels_in };

    ghost invariant = { AreRows };
}

impl Rows {
    /// No labels, and room for `room` of them.
    pub fn new(alloc: Global, width: usize, room: usize) -> Result<Rows, AllocError>
        requires { 0 < width }
        ensures width { IfOk result (λ r. r.width ≡ width) }
        ensures room { IfOk result (λ r. r.room ≡ room) }
        ensures space { IfOk result (λ r. room * width ≤ r.space) }
        ensures labels { IfOk result (λ r. r.labels ≡ []) }
    {
        Ok(Rows {
            width,
            room,
            count: 0,
            words: Vec::with_capacity(alloc, room.saturating_mul(width))?,
        })
    }

    /// Appends a label, for which there is room.
    pub fn push(&mut self, label: &[u64])
        requires width { length label.now ≡ self.old.width }
        requires room { length self.old.labels < self.old.room }
        ensures labels { self.new.labels ≡ self.old.labels ++ label.now ∷ [] }
        ensures width { self.new.width ≡ self.old.width }
        ensures room { self.new.room ≡ self.old.room }
        ensures space { self.old.space ≤ self.new.space }
    {
        match self.words.extend_from_slice(label) {
            Ok(()) => self.count += 1,
            Err(_) => unreachable!(),
        }
    }

    pub fn label(&self, q: u32) -> &[u64]
        requires { q < length self.now.labels }
        ensures { result.now ≡ slice_index_or self.now.labels q [] }
    {
        let words = self.words.as_slice();
        let from = q as usize * self.width;
        &words[from..from + self.width]
    }

    pub fn len(&self) -> usize
        ensures { result ≡ length self.now.labels }
    {
        self.count
    }

    /// How many words each label has.
    pub fn width(&self) -> usize
        ensures count { result ≡ self.now.width }
        ensures each { (q : ℕ) → q < length self.now.labels
            → length (slice_index_or self.now.labels q []) ≡ self.now.width }
    {
        self.width
    }

    /// Takes all labels out; the room stays.
    pub fn clear(&mut self)
        ensures labels { self.new.labels ≡ [] }
        ensures width { self.new.width ≡ self.old.width }
        ensures room { self.new.room ≡ self.old.room }
        ensures space { self.new.space ≡ self.old.space }
    {
        self.words.clear();
        self.count = 0;
    }

    /// Takes all labels out; those to come have this width, and there is room for as many as the words suffice for.
    pub fn reset(&mut self, width: usize)
        requires { 0 < width }
        ensures labels { self.new.labels ≡ [] }
        ensures width { self.new.width ≡ width }
        ensures room { (n : ℕ) → n * width ≤ self.old.space → n ≤ self.new.room }
        ensures space { self.new.space ≡ self.old.space }
    {
        self.words.clear();
        self.count = 0;
        self.width = width;
        self.room = self.words.capacity() / width;
    }

    /// Makes room for one more.
    pub fn make_room(&mut self) -> Result<(), AllocError>
        ensures labels { self.new.labels ≡ self.old.labels }
        ensures width { self.new.width ≡ self.old.width }
        ensures room { OnOk result (length self.new.labels < self.new.room) }
        ensures widths { (q : ℕ) → q < length self.new.labels
            → length (slice_index_or self.new.labels q []) ≡ self.new.width }
    {
        if self.count == self.room {
            self.words.reserve(self.width)?;
            self.room += 1;
        }
        Ok(())
    }
}
