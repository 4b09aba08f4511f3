//! What a projection keeps from one entry to the next.
ghost use Rattle.std.specs.Prelude.{◌≡◌, ◌≢◌, ℕ, ◌+◌, ◌^◌, ◌<◌, ◌≤◌, [], length, slice_index, slice_index_or, IfOk, IsTrue, IfSome};
ghost use Rattle.fort_target_lists.specs.LabelLists.{labels_at};
ghost use Rattle.fort_tables.specs.Tables as tables;
ghost use Rattle.fort_tables.specs.BitRows.{words_for};
ghost use Rattle.fort_projections.specs.ImageFacts.{AreImages, IsImage, IsKeyOf};

use fort_labels::Rows;
use fort_terms::{Signature, Sym};
use fort_tuple_symbols::{Row, TupleSym};
use std::alloc::{AllocError, Global};

/// So many words of images are kept at most, 8 MiB.
const MOST_WORDS: usize = 1048576;

/// The sets of states that entries give which differ in one child alone, one for each state that this child may be in. They are made
/// when they are first needed, and kept as long as the symbol and the other children's labels stay the same.
#[derive(Drop)]
pub struct Images {
    /// The entry read last.
    last: Row,
    /// The entry whose other children the images belong to.
    pub(crate) key: Row,
    /// The labels of its children.
    pub(crate) labels: Rows,
    /// Which child changes.
    pub(crate) place: usize,
    /// For each state the number of its image, from 1, or 0.
    pub(crate) slots: Vec<u32>,
    /// The images, in the form of labels.
    pub(crate) images: Rows,
    /// How many images there is room for.
    pub(crate) room: usize,
    /// The image that is being made.
    pub(crate) image: Vec<u64>,
}

/// Whether some symbol has two arguments or more.
fn has_fork(sig: &Signature) -> bool {
    for g in 0..sig.len() {
        if sig.arity(Sym(g as u16)) > 1 {
            return true;
        }
    }
    false
}

/// The one child in which two entries of a symbol of two children or more differ.
fn changed_place(last: &Row, row: &Row) -> Option<usize>
    ensures { IfSome result (λ v. v < length row.now.kids) }
{
    let kids = row.kids();
    if kids.len() < 2 || !last.is_entry(&row.sym(), last.kids()) {
        return None;
    }
    one_difference(last.kids(), kids)
}

/// The one place at which two lists of one length differ.
fn one_difference(olds: &[u32], news: &[u32]) -> Option<usize>
    ensures { IfSome result (λ v. v < length news.now) }
{
    if olds.len() != news.len() {
        return None;
    }
    let place = first_difference(olds, news, 0)?;
    match first_difference(olds, news, place + 1) {
        Some(_) => None,
        None => Some(place),
    }
}

/// The first place from `from` on at which two lists of one length differ.
fn first_difference(olds: &[u32], news: &[u32], from: usize) -> Option<usize>
    requires { length olds.now ≡ length news.now }
    ensures { IfSome result (λ v. v < length news.now) }
{
    for j in from..news.len() {
        if olds[j] != news[j] {
            return Some(j);
        }
    }
    None
}

impl Images {
    /// No images, and room for those of a body with this many states and this signature.
    pub(crate) fn new(
        alloc: Global,
        sig: &Signature,
        states: usize,
        width: usize,
    ) -> Result<Images, AllocError>
        requires few { states < 2 ^ 32 }
        requires width { 2 ≤ width }
        ensures { (body : tables.Table) (c : ℕ) → states ≡ length body.presences
            → width ≡ words_for states + 2 → IfOk result (AreImages body c) }
    {
        let room = if has_fork(sig) {
            states.min(MOST_WORDS / width)
        } else {
            0
        };
        let nothing = Row::new(TupleSym::new(&[]), &[]);
        Ok(Images {
            last: nothing,
            key: nothing,
            labels: Rows::new(alloc, width, 8)?,
            place: 0,
            slots: vec![in alloc; 0u32; states]?,
            images: Rows::new(alloc, width, room)?,
            room,
            image: vec![in alloc; 0u64; width]?,
        })
    }

    /// Whether the images are those of an entry: its symbol and the labels of its other children are the same.
    fn is_for(&self, row: &Row, rows: &Rows) -> bool
        requires kids { (j : ℕ) → j < length row.now.kids
            → slice_index_or row.now.kids j 0 < length rows.now.labels }
        ensures { IsTrue result → IsKeyOf self.now row.now.symbol
            (labels_at rows.now.labels row.now.kids) }
    {
        let kids = row.kids();
        kids.len() == self.labels.len()
            && self.place < kids.len()
            && self.key.is_entry(&row.sym(), self.key.kids())
            && self.has_others(kids, rows)
    }

    /// Whether the other children have the labels kept.
    fn has_others(&self, kids: &[u32], rows: &Rows) -> bool
        requires count { length kids.now ≡ length self.now.labels.labels }
        requires few { length kids.now ≤ 8 }
        requires kids { (j : ℕ) → j < length kids.now
            → slice_index_or kids.now j 0 < length rows.now.labels }
        ensures { IsTrue result → (j : ℕ) → j < length kids.now → j ≢ self.now.place
            → slice_index_or self.now.labels.labels j [] ≡ slice_index_or rows.now.labels
            (slice_index_or kids.now j 0) [] }
    {
        for j in 0..kids.len() {
            if j != self.place && rows.label(kids[j]) != self.labels.label(j as u32) {
                return false;
            }
        }
        true
    }

    /// Whether the images are those of an entry. Where it differs from the last one in one child alone, there are none yet, and it is
    /// the entry that they belong to from now on.
    pub(crate) fn turn_to(&mut self, row: &Row, rows: &Rows) -> bool
        requires kids { (j : ℕ) → j < length row.now.kids
            → slice_index_or row.now.kids j 0 < length rows.now.labels }
        requires wide { (j : ℕ) → j < length row.now.kids → length (slice_index_or rows.now.labels
            (slice_index_or row.now.kids j 0) []) ≡ self.old.labels.width }
        requires room { self.old.labels.room ≡ 8 }
        ensures images { (body : tables.Table) (c : ℕ) → AreImages body c self.old
            → AreImages body c self.new }
        ensures of_entry { IsTrue result → IsKeyOf self.new row.now.symbol
            (labels_at rows.now.labels row.now.kids) }
    {
        let last = self.last;
        self.last = *row;
        if self.is_for(row, rows) {
            return true;
        }
        match changed_place(&last, row) {
            Some(place) => {
                self.start(row, rows, place);
                true
            }
            None => false,
        }
    }

    /// No images, of this entry without this child.
    fn start(&mut self, row: &Row, rows: &Rows, place: usize)
        requires kids { (j : ℕ) → j < length row.now.kids
            → slice_index_or row.now.kids j 0 < length rows.now.labels }
        requires wide { (j : ℕ) → j < length row.now.kids → length (slice_index_or rows.now.labels
            (slice_index_or row.now.kids j 0) []) ≡ self.old.labels.width }
        requires room { self.old.labels.room ≡ 8 }
        requires place { place < length row.now.kids }
        ensures images { (body : tables.Table) (c : ℕ) → AreImages body c self.old
            → AreImages body c self.new }
        ensures of_entry { IsKeyOf self.new row.now.symbol
            (labels_at rows.now.labels row.now.kids) }
    {
        self.key = *row;
        self.place = place;
        keep_labels(row, rows, &mut self.labels);
        forget(self.slots.as_mut_slice());
        self.images.clear();
    }

    /// Keeps the image that was made as the one of this state, where there is room for it.
    pub(crate) fn note(&mut self, state: u32)
        requires state { state < length self.old.slots.items }
        requires room { self.old.room ≡ self.old.images.room }
        requires few { self.old.room < 2 ^ 32 }
        requires width { length self.old.image.items ≡ self.old.images.width }
        ensures key { self.new.key ≡ self.old.key }
        ensures labels { self.new.labels ≡ self.old.labels }
        ensures place { self.new.place ≡ self.old.place }
        ensures images { (body : tables.Table) (c : ℕ) → AreImages body c self.old
            → IsImage body c self.old state self.old.image.items → AreImages body c self.new }
    {
        if self.images.len() < self.room {
            self.images.push(&self.image);
            self.slots[state as usize] = self.images.len() as u32;
        }
    }
}

/// Keeps the labels of an entry's children alone.
fn keep_labels(row: &Row, rows: &Rows, kept: &mut Rows)
    requires kids { (j : ℕ) → j < length row.now.kids
        → slice_index_or row.now.kids j 0 < length rows.now.labels }
    requires wide { (j : ℕ) → j < length row.now.kids → length (slice_index_or rows.now.labels
        (slice_index_or row.now.kids j 0) []) ≡ kept.old.width }
    requires room { kept.old.room ≡ 8 }
    ensures labels { kept.new.labels ≡ labels_at rows.now.labels row.now.kids }
    ensures width { kept.new.width ≡ kept.old.width }
    ensures room { kept.new.room ≡ kept.old.room }
{
    let kids = row.kids();
    kept.clear();
    for j in 0..kids.len() {
        kept.push(rows.label(kids[j]));
    }
}

/// No state has an image any more.
fn forget(slots: &mut [u32])
    ensures { (s : ℕ) → slice_index slots.new s ≡ 0 }
{
    for slot in slots.iter_mut() {
        *slot = 0;
    }
}
