//! The places under a tuple symbol of the list that is tightened.
ghost use Rattle.std.specs.Prelude.{◌≡◌, ℕ, ◌<◌, ◌≤◌, take, slice_index};
ghost use Rattle.fort_class_blocks.specs.Blocks.{counts_at};
ghost use Rattle.fort_target_lists.specs.ClassLists.{view_of};
ghost use Rattle.fort_tight_lists.specs.TightSymbols.{IsReadable};

use fort_target_lists::ClassList;

/// A tuple symbol by its number in the list, and how many places it has.
#[derive(Clone, Copy)]
pub(crate) struct OldSymbol<'a> {
    pub list: &'a ClassList,
    pub number: usize,
    pub places: usize,
}

impl<'a> OldSymbol<'a> {
    /// The numbers of the places' views.
    pub fn views(&self) -> [u32; 8]
        requires few { self.now.places ≤ 8 }
        requires readable { IsReadable self.now.list.now self.now.number self.now.places }
        ensures { (j : ℕ) → j < self.now.places
            → slice_index result j ≡ view_of self.now.list.now self.now.number j }
    {
        let mut views = [0u32; 8];
        for place in 0..self.places {
            views[place] = self.list.view(self.number, place);
        }
        views
    }

    /// How many classes each place has.
    pub fn counts(&self) -> [u32; 8]
        requires few { self.now.places ≤ 8 }
        requires readable { IsReadable self.now.list.now self.now.number self.now.places }
        ensures { take self.now.places result
            ≡ counts_at self.now.list.now.blocks self.now.number }
    {
        let mut counts = [0u32; 8];
        for place in 0..self.places {
            let view = self.list.view(self.number, place);
            counts[place] = self.list.leaders(view).len() as u32;
        }
        counts
    }
}
