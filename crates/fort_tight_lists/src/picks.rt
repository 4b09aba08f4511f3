//! Blocks over renumbered classes.
ghost use Rattle.std.specs.Prelude.{◌≡◌, ℕ, ◌+◌, ◌<◌, ◌≤◌, ◌^◌, List, [], map, vec_items, length, take, slice_index_or, OnOk};
ghost use Rattle.fort_class_blocks.specs.Blocks.{Block, AreClasses, counts_at};
ghost use Rattle.fort_class_blocks.specs.KeptBlocks.{KeepsBlocks, HasBlock};
ghost use Rattle.fort_tight_lists.specs.Picks.{renumbered, AreFirsts, IsPicked};

use fort_class_blocks::{Blocks, first_classes, next_classes};
use std::alloc::AllocError;

/// For each place and each new number the first class that has it.
#[derive(Clone, Copy)]
pub(crate) struct Firsts<'a> {
    pub lists: &'a [Vec<u32>],
}

impl<'a> Firsts<'a> {
    /// The first classes at a place.
    fn of(&self, place: usize) -> &[u32]
        requires { place < length self.now.lists.now }
        ensures { result.now ≡ slice_index_or (map vec_items self.now.lists.now) place [] }
    {
        self.lists[place].as_slice()
    }

    /// How many new numbers each place has.
    fn counts(&self) -> [u32; 8]
        requires few { length self.now.lists.now ≤ 8 }
        requires small { (j : ℕ) → length (slice_index_or (map vec_items self.now.lists.now) j [])
            < 2 ^ 32 }
        ensures { take (length self.now.lists.now) result
            ≡ map length (map vec_items self.now.lists.now) }
    {
        let mut counts = [0u32; 8];
        for place in 0..self.lists.len() {
            counts[place] = self.of(place).len() as u32;
        }
        counts
    }

    /// The first classes that have these numbers.
    fn classes(&self, numbers: [u32; 8]) -> [u32; 8]
        requires few { length self.now.lists.now ≤ 8 }
        requires numbers { AreClasses (map length (map vec_items self.now.lists.now))
            (take (length self.now.lists.now) numbers) }
        ensures { take (length self.now.lists.now) result
            ≡ renumbered (map vec_items self.now.lists.now)
            (take (length self.now.lists.now) numbers) }
    {
        let mut classes = [0u32; 8];
        for place in 0..self.lists.len() {
            classes[place] = self.of(place)[numbers[place] as usize];
        }
        classes
    }

    /// Gives each combination of new numbers the target of the first classes that have them, in a block of the old list.
    fn fill(&self, old: &Blocks, from: usize, block: usize, blocks: &mut Blocks)
        requires firsts { AreFirsts old.now from (map vec_items self.now.lists.now) }
        requires few { length self.now.lists.now ≤ 8 }
        requires from { from < length old.now }
        requires block { block < length blocks.old }
        requires counts { counts_at blocks.old block
            ≡ map length (map vec_items self.now.lists.now) }
        ensures picked { IsPicked old.now from (map vec_items self.now.lists.now) blocks.new block }
        ensures others { KeepsBlocks block blocks.old blocks.new }
    {
        let places = self.lists.len();
        let counts = self.counts();
        let mut next = first_classes(&counts[..places]);
        'combinations: while let Some(numbers) = next {
            let classes = self.classes(numbers);
            blocks.put(
                block,
                &numbers[..places],
                old.target(from, &classes[..places]),
            );
            next = next_classes(&counts[..places], numbers);
        }
    }

    /// Appends the block over the new numbers.
    pub fn add_block(
        &self,
        old: &Blocks,
        from: usize,
        blocks: &mut Blocks,
    ) -> Result<(), AllocError>
        requires firsts { AreFirsts old.now from (map vec_items self.now.lists.now) }
        requires few { length self.now.lists.now ≤ 8 }
        requires from { from < length old.now }
        ensures added { OnOk result (HasBlock blocks.old blocks.new
            (map length (map vec_items self.now.lists.now))) }
        ensures picked { OnOk result (IsPicked old.now from (map vec_items self.now.lists.now)
            blocks.new (length blocks.old)) }
    {
        let counts = self.counts();
        let block = blocks.len();
        blocks.add(&counts[..self.lists.len()])?;
        self.fill(old, from, block, blocks);
        Ok(())
    }
}
