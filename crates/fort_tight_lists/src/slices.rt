//! The classes of a place that have the same targets, whatever the classes of the other places are.
ghost use Rattle.std.specs.Prelude.{◌≡◌, ℕ, ◌<◌, ◌≤◌, List, set, take, length, slice_index, IfOk};
ghost use Rattle.fort_class_blocks.specs.Blocks.{counts_at};
ghost use Rattle.fort_tight_lists.specs.Slices.{others_of, IsSlice, IsRenumbering};

use fort_class_blocks::{Blocks, first_classes, next_classes};
use fort_tuple_symbols::DigitSet;
use std::alloc::{AllocError, Global};

/// A tuple symbol's block, with its counts of classes.
#[derive(Clone, Copy)]
pub(crate) struct OneBlock<'a> {
    pub blocks: &'a Blocks,
    pub block: usize,
    pub counts: &'a [u32],
}

/// New numbers of a place's classes: for each class its number, and for each number the first class that has it.
#[derive(Drop)]
pub(crate) struct Renumbering {
    pub numbers: Vec<u32>,
    pub firsts: Vec<u32>,
}

/// The same but for one place.
fn with_class(mut classes: [u32; 8], place: usize, class: u32) -> [u32; 8]
    requires { place < 8 }
    ensures { result ≡ set classes place class }
{
    classes[place] = class;
    classes
}

/// The counts, with a single class at a place.
fn others(counts: &[u32], place: usize) -> [u32; 8]
    requires few { length counts.now ≤ 8 }
    requires place { place < length counts.now }
    ensures { take (length counts.now) result ≡ others_of counts.now place }
{
    let mut all = [0u32; 8];
    all[..counts.len()].copy_from_slice(counts);
    all[place] = 1;
    all
}

impl<'a> OneBlock<'a> {
    /// The targets of the combinations with this class at a place.
    fn slice(&self, alloc: Global, place: usize, class: u32) -> Result<Vec<u32>, AllocError>
        requires block { self.now.block < length self.now.blocks.now }
        requires counts { counts_at self.now.blocks.now self.now.block ≡ self.now.counts.now }
        requires few { length self.now.counts.now ≤ 8 }
        requires place { place < length self.now.counts.now }
        requires class { class < slice_index self.now.counts.now place }
        ensures { IfOk result (λ s. IsSlice self.now.blocks.now self.now.block self.now.counts.now
            place class s.items) }
    {
        let places = self.counts.len();
        let others = others(self.counts, place);
        let mut slice = Vec::new(alloc);
        let mut next = first_classes(&others[..places]);
        'combinations: while let Some(classes) = next {
            let here = with_class(classes, place, class);
            slice.push(self.blocks.target(self.block, &here[..places]))?;
            next = next_classes(&others[..places], classes);
        }
        Ok(slice)
    }

    /// The classes of a place, those with equal targets being one.
    pub fn renumbered(&self, alloc: Global, place: usize) -> Result<Renumbering, AllocError>
        requires block { self.now.block < length self.now.blocks.now }
        requires counts { counts_at self.now.blocks.now self.now.block ≡ self.now.counts.now }
        requires few { length self.now.counts.now ≤ 8 }
        requires place { place < length self.now.counts.now }
        ensures { IfOk result (λ r. IsRenumbering self.now.blocks.now self.now.block
            self.now.counts.now place r.numbers.items r.firsts.items) }
    {
        let mut slices = DigitSet::new(alloc);
        let mut made = Renumbering {
            numbers: Vec::new(alloc),
            firsts: Vec::new(alloc),
        };
        for class in 0..self.counts[place] {
            let slice = self.slice(alloc, place, class)?;
            match slices.find(slice.as_slice()) {
                Some(number) => made.numbers.push(number as u32)?,
                None => {
                    made.numbers.push(made.firsts.len() as u32)?;
                    made.firsts.push(class)?;
                    slices.push(slice)?;
                }
            }
        }
        Ok(made)
    }
}
