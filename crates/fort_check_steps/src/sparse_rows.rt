//! Lists of labels of one width, kept by their words that aren't zero.
ghost use Rattle.std.specs.Prelude.{◌≡◌, ℕ, ◌+◌, ◌*◌, ◌<◌, ◌≤◌, [], ◌∷◌, ◌++◌, length, slice_index_or, vec_len, vec_capacity, IfOk, IsTrue, ◌↔◌};
ghost use Rattle.fort_check_steps.specs.SparseWords.{places_from, words_of, scattered, start_of, HasWords};

use std::alloc::{AllocError, Global};
use std::marker::Model;

/// A list of labels of one width. Of each label there are its words that aren't zero, with their places in it, so that a list of
/// wide labels with few such words takes little memory: what it has room for and doesn't hold is never touched.
#[derive(Drop)]
pub struct SparseRows {
    width: usize,
    room: usize,
    /// How many labels, and words of them, there is room for at most.
    most: usize,
    space: usize,
    /// Where each label's words end.
    ends: Vec<usize>,
    places: Vec<usize>,
    words: Vec<u64>,
}

impl Model for SparseRows {
    ghost use Rattle.fort_check_steps.specs.SparseRowsView.{SparseLabels};

    ghost Value = { SparseLabels };

    ghost use Rattle.fort_check_steps.specs.SparseRowsInside.{sparse_labels_in, AreSparseRows};

    ghost view = { sparse_labels_in };

    ghost invariant = { AreSparseRows };
}

/// Appends a label's words that aren't zero, and their places.
fn put_words(label: &[u64], places: &mut Vec<usize>, words: &mut Vec<u64>)
    requires places { vec_len places.old + length label.now ≤ vec_capacity places.old }
    requires words { vec_len words.old + length label.now ≤ vec_capacity words.old }
    ensures places { places.new.items ≡ places.old.items ++ places_from 0 label.now }
    ensures words { words.new.items ≡ words.old.items ++ words_of label.now }
    ensures places_room { vec_capacity places.new ≡ vec_capacity places.old }
    ensures words_room { vec_capacity words.new ≡ vec_capacity words.old }
{
    for place in 0..label.len() {
        let word = label[place];
        if word != 0 {
            places.push_reserved(place);
            words.push_reserved(word);
        }
    }
}

/// Writes each word at its place.
fn scatter(places: &[usize], words: &[u64], out: &mut [u64])
    requires count { length places.now ≡ length words.now }
    requires within { (k : ℕ) → k < length places.now
        → slice_index_or places.now k 0 < length out.old }
    ensures { out.new ≡ scattered out.old places.now words.now }
{
    for k in 0..places.len() {
        out[places[k]] = words[k];
    }
}

/// Whether the words that aren't zero are these, at these places.
fn are_words(label: &[u64], places: &[usize], words: &[u64]) -> bool
    requires count { length places.now ≡ length words.now }
    ensures { IsTrue result ↔ HasWords label.now places.now words.now }
{
    let mut next = 0;
    for place in 0..label.len() {
        let word = label[place];
        if word != 0 {
            if next == words.len() || words[next] != word || places[next] != place {
                return false;
            }
            next += 1;
        }
    }
    next == words.len()
}

/// Where the words of the label with this index begin.
fn start(ends: &[usize], index: usize) -> usize
    requires { index ≤ length ends.now }
    ensures { result ≡ start_of ends.now index }
{
    if index == 0 { 0 } else { ends[index - 1] }
}

impl SparseRows {
    /// No labels, and room for so many of so many words together.
    pub fn new(
        alloc: Global,
        width: usize,
        most: usize,
        space: usize,
    ) -> Result<SparseRows, AllocError>
        requires { 0 < width }
        ensures width { IfOk result (λ r. r.width ≡ width) }
        ensures most { IfOk result (λ r. r.most ≡ most) }
        ensures space { IfOk result (λ r. r.space ≡ space) }
        ensures labels { IfOk result (λ r. r.labels ≡ []) }
    {
        Ok(SparseRows {
            width,
            room: (space / width).min(most),
            most,
            space,
            ends: Vec::with_capacity(alloc, most)?,
            places: Vec::with_capacity(alloc, space)?,
            words: Vec::with_capacity(alloc, space)?,
        })
    }

    /// Takes all labels out; those to come have this width, and there is room for as many as the words suffice for.
    pub fn reset(&mut self, width: usize)
        requires { 0 < width }
        ensures labels { self.new.labels ≡ [] }
        ensures width { self.new.width ≡ width }
        ensures room { (n : ℕ) → n * width ≤ self.old.space → n ≤ self.old.most
            → n ≤ self.new.room }
        ensures most { self.new.most ≡ self.old.most }
        ensures space { self.new.space ≡ self.old.space }
    {
        self.ends.clear();
        self.places.clear();
        self.words.clear();
        self.width = width;
        self.room = (self.space / width).min(self.most);
    }

    pub fn len(&self) -> usize
        ensures { result ≡ length self.now.labels }
    {
        self.ends.len()
    }

    /// Appends a label, for which there is room.
    pub fn push(&mut self, label: &[u64])
        requires width { length label.now ≡ self.old.width }
        requires room { length self.old.labels < self.old.room }
        ensures labels { self.new.labels ≡ self.old.labels ++ label.now ∷ [] }
        ensures width { self.new.width ≡ self.old.width }
        ensures room { self.new.room ≡ self.old.room }
        ensures most { self.new.most ≡ self.old.most }
        ensures space { self.new.space ≡ self.old.space }
    {
        put_words(label, &mut self.places, &mut self.words);
        self.ends.push_reserved(self.places.len());
    }

    /// Writes all words of a label.
    pub fn write(&self, q: u32, out: &mut [u64])
        requires state { q < length self.now.labels }
        requires width { length out.old ≡ self.now.width }
        ensures { out.new ≡ slice_index_or self.now.labels q [] }
    {
        let index = q as usize;
        let from = start(self.ends.as_slice(), index);
        let to = self.ends[index];
        let places = self.places.as_slice();
        let words = self.words.as_slice();
        out.fill(0);
        scatter(&places[from..to], &words[from..to], out);
    }

    /// Whether a label is this one.
    pub fn is_label(&self, q: u32, label: &[u64]) -> bool
        requires { q < length self.now.labels }
        ensures { IsTrue result ↔ (slice_index_or self.now.labels q [] ≡ label.now) }
    {
        let index = q as usize;
        let from = start(self.ends.as_slice(), index);
        let to = self.ends[index];
        let places = self.places.as_slice();
        let words = self.words.as_slice();
        label.len() == self.width && are_words(label, &places[from..to], &words[from..to])
    }
}
