//! The leaders of the classes at the places under a tuple symbol, and its block of targets.
ghost use Rattle.std.specs.Prelude.{◌≡◌, ℕ, ◌+◌, ◌<◌, ◌≤◌, ◌^◌, List, [], map, length, take, slice_index, slice_index_or, OnOk};
ghost use Rattle.fort_tables.specs.Tuples.{AreSymbols, IsPresent, symbol_kids};
ghost use Rattle.fort_tables.specs.Entries.{Entry};
ghost use Rattle.fort_class_blocks.specs.Blocks.{AreClasses, counts_at};
ghost use Rattle.fort_class_targets.specs.FilledBlocks.{leaders_of, leaders_over, ArePlaces, MayFill, IsFilled};
ghost use Rattle.fort_class_blocks.specs.KeptBlocks.{KeepsBlocks, HasBlock};

use fort_class_blocks::{Blocks, first_classes, next_classes};
use fort_leading_tables::LeadingTargets;
use fort_target_lists::{ClassView, is_present};
use fort_tuple_symbols::TupleSym;
use std::alloc::AllocError;

/// The views of the places under a tuple symbol, by their numbers.
#[derive(Clone, Copy)]
pub(crate) struct PlaceLeaders<'a> {
    pub views: &'a [ClassView],
    pub numbers: &'a [u32],
}

impl<'a> PlaceLeaders<'a> {
    /// The leaders at a place.
    fn leaders(&self, place: usize) -> &[u32]
        requires places { ArePlaces self.now.views.now self.now.numbers.now }
        requires place { place < length self.now.numbers.now }
        ensures { result.now
            ≡ slice_index_or (leaders_of self.now.views.now self.now.numbers.now) place [] }
    {
        let view = &self.views[self.numbers[place] as usize];
        view.leaders.as_slice()
    }

    /// How many classes there are at each place.
    fn counts(&self) -> [u32; 8]
        requires { ArePlaces self.now.views.now self.now.numbers.now }
        ensures { take (length self.now.numbers.now) result
            ≡ map length (leaders_of self.now.views.now self.now.numbers.now) }
    {
        let mut counts = [0u32; 8];
        for place in 0..self.numbers.len() {
            counts[place] = self.leaders(place).len() as u32;
        }
        counts
    }

    /// The leaders of a combination of classes.
    fn over(&self, classes: [u32; 8]) -> [u32; 8]
        requires places { ArePlaces self.now.views.now self.now.numbers.now }
        requires classes { AreClasses (map length (leaders_of self.now.views.now
            self.now.numbers.now)) (take (length self.now.numbers.now) classes) }
        ensures { take (length self.now.numbers.now) result
            ≡ leaders_over (leaders_of self.now.views.now self.now.numbers.now)
            (take (length self.now.numbers.now) classes) }
    {
        let mut kids = [0u32; 8];
        for place in 0..self.numbers.len() {
            kids[place] = self.leaders(place)[classes[place] as usize];
        }
        kids
    }

    /// Gives each combination of classes the target of the entry over their leaders.
    fn fill(&self, symbol: &TupleSym, targets: &LeadingTargets, block: usize, blocks: &mut Blocks)
        requires places { ArePlaces self.now.views.now self.now.numbers.now }
        requires block { block < length blocks.old }
        requires counts { counts_at blocks.old block
            ≡ map length (leaders_of self.now.views.now self.now.numbers.now) }
        requires told { (columns : ℕ) × (es : List Entry) × (qs : List ℕ)
            × MayFill columns es qs targets.now symbol.now
            (leaders_of self.now.views.now self.now.numbers.now) }
        ensures filled { (columns : ℕ) (es : List Entry) (qs : List ℕ)
            → MayFill columns es qs targets.now symbol.now
            (leaders_of self.now.views.now self.now.numbers.now)
            → IsFilled es qs symbol.now (leaders_of self.now.views.now self.now.numbers.now)
            blocks.new block }
        ensures others { KeepsBlocks block blocks.old blocks.new }
    {
        // its clause bounds the number of columns
        let _columns = symbol.len();
        let places = self.numbers.len();
        let counts = self.counts();
        let mut next = first_classes(&counts[..places]);
        'combinations: while let Some(classes) = next {
            let kids = self.over(classes);
            let target = targets.target(symbol.digits(), &kids[..places]);
            blocks.put(block, &classes[..places], target);
            next = next_classes(&counts[..places], classes);
        }
    }

    /// Appends the tuple symbol's block; that of no columns is never read.
    pub fn add_block(
        &self,
        symbol: &TupleSym,
        targets: &LeadingTargets,
        blocks: &mut Blocks,
    ) -> Result<(), AllocError>
        requires places { ArePlaces self.now.views.now self.now.numbers.now }
        requires told { (columns : ℕ) × (es : List Entry) × (qs : List ℕ)
            × (IsPresent symbol.now → MayFill columns es qs targets.now symbol.now
            (leaders_of self.now.views.now self.now.numbers.now)) }
        ensures added { OnOk result (HasBlock blocks.old blocks.new
            (map length (leaders_of self.now.views.now self.now.numbers.now))) }
        ensures filled { OnOk result ((columns : ℕ) (es : List Entry) (qs : List ℕ)
            → IsPresent symbol.now → MayFill columns es qs targets.now symbol.now
            (leaders_of self.now.views.now self.now.numbers.now)
            → IsFilled es qs symbol.now (leaders_of self.now.views.now self.now.numbers.now)
            blocks.new (length blocks.old)) }
    {
        let counts = self.counts();
        let block = blocks.len();
        blocks.add(&counts[..self.numbers.len()])?;
        if is_present(symbol) {
            self.fill(symbol, targets, block, blocks);
        }
        Ok(())
    }
}
