//! The targets of a table in one list.
ghost use Rattle.std.specs.Prelude.{◌≡◌, ◌+◌, ◌-◌, ◌*◌, ◌<◌, ◌^◌, min, length, slice_index};
ghost use Rattle.fort_target_lists.specs.Places.{number_of, place_from, IsReadable, read_at, AreStatesIn};

use crate::numbers::symbol_number;
use fort_tuple_symbols::TupleSym;
use std::alloc::Global;

/// Where each state stands among the states of its presence.
#[derive(Drop)]
pub struct Spots {
    /// The states' ranks, from 0.
    pub ranks: Vec<u32>,
    /// How many states have the state's presence.
    pub alike: Vec<u32>,
}

/// The targets of all entries, those of one tuple symbol side by side.
#[derive(Drop)]
pub struct Listing {
    /// Where the targets of a tuple symbol start, by its number.
    pub starts: Vec<usize>,
    pub targets: Vec<u32>,
}

/// The targets of a table in one list, a tuple symbol's in the order of its children's ranks, the last child's first.
#[derive(Drop)]
pub struct FlatTargets {
    /// One more than there are symbols.
    pub base: usize,
    pub spots: Spots,
    pub listing: Listing,
}

impl Spots {
    /// The place of one more state behind a place. Where a later child has no state at all, places may grow past a word's range.
    fn next_place(&self, place: usize, state: u32) -> usize
        requires rank { state < length self.now.ranks.items }
        requires count { state < length self.now.alike.items }
        ensures { result ≡ min (min (place * slice_index self.now.alike.items state) (2 ^ 64 - 1)
            + slice_index self.now.ranks.items state) (2 ^ 64 - 1) }
    {
        let count = self.alike[state as usize] as usize;
        place
            .saturating_mul(count)
            .saturating_add(self.ranks[state as usize] as usize)
    }

    /// The place of child states.
    pub fn place_of(&self, states: &[u32]) -> usize
        requires { AreStatesIn self.now states.now }
        ensures { result ≡ min (place_from self.now.ranks.items self.now.alike.items 0 states.now)
            (2 ^ 64 - 1) }
    {
        let mut place = 0;
        for state in states {
            place = self.next_place(place, *state);
        }
        place
    }
}

impl FlatTargets {
    /// No list.
    pub(crate) fn new(alloc: Global) -> FlatTargets {
        FlatTargets {
            base: 0,
            spots: Spots {
                ranks: Vec::new(alloc),
                alike: Vec::new(alloc),
            },
            listing: Listing {
                starts: Vec::new(alloc),
                targets: Vec::new(alloc),
            },
        }
    }

    /// Where the targets of the tuple symbol with this number start.
    pub fn start(&self, number: usize) -> usize
        requires { number < length self.now.listing.starts.items }
        ensures { result ≡ slice_index self.now.listing.starts.items number }
    {
        self.listing.starts[number]
    }

    /// The target of the entry over these child states, where its tuple symbol's targets start there.
    pub fn target(&self, start: usize, states: &[u32]) -> u32
        requires states { AreStatesIn self.now.spots states.now }
        requires within { start + place_from self.now.spots.ranks.items self.now.spots.alike.items
            0 states.now < length self.now.listing.targets.items }
        ensures { result ≡ slice_index self.now.listing.targets.items (start
            + place_from self.now.spots.ranks.items self.now.spots.alike.items 0 states.now) }
    {
        // its clause bounds the length
        let _count = self.listing.targets.len();
        self.listing.targets[start + self.spots.place_of(states)]
    }

    /// The target where the last child has this state, and the ones before it are at this place.
    pub fn target_behind(&self, start: usize, place: usize, state: usize) -> u32
        requires { IsReadable self.now start place state }
        ensures { result ≡ read_at self.now start place state }
    {
        // its clause bounds the length
        let _count = self.listing.targets.len();
        let behind = place * self.spots.alike[state] as usize + self.spots.ranks[state] as usize;
        self.listing.targets[start + behind]
    }

    /// The number of a tuple symbol.
    pub fn number(&self, symbol: &TupleSym) -> usize
        requires some { 0 < self.now.base }
        requires small { number_of self.now.base symbol.now < 2 ^ 64 }
        ensures { result ≡ number_of self.now.base symbol.now }
    {
        symbol_number(symbol, self.base)
    }
}
