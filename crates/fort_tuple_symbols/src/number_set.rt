//! Sets of numbers, each found by one read.
ghost use Rattle.std.specs.Prelude.{◌≡◌, ℕ, ◌<◌, ◌^◌, [], ◌∷◌, ◌++◌, length, slice_index, OnOk, OnErr, MatchOption};
ghost use Rattle.fort_tuple_symbols.specs.WiderPlaces.{IsWider};

use std::alloc::{AllocError, Global};
use std::marker::Model;

/// Numbers in the order in which they came.
#[derive(Drop)]
pub struct NumberSet {
    count: u32,
    /// For each number up to the greatest, and some more, one more than its place, or 0.
    places: Vec<u32>,
}

impl Model for NumberSet {
    ghost use Rattle.std.specs.Prelude.{ℕ, List};

    ghost Value = { List ℕ };

    ghost use Rattle.fort_tuple_symbols.specs.NumberPlaces.{numbers_in, ArePlaces};

    ghost view = { λ r. numbers_in r.count r.places.items };

    ghost invariant = { λ r. ArePlaces (numbers_in r.count r.places.items) r.places.items };
}

/// Makes the list long enough for this number, and for some more so that few calls write any: zeros behind what is there.
pub fn reach(places: &mut Vec<u32>, number: usize) -> Result<(), AllocError>
    requires { number < 2 ^ 26 }
    ensures ok { OnOk result (IsWider number places.old.items places.new.items) }
    ensures err { OnErr result (places.new.items ≡ places.old.items) }
{
    if number < places.len() {
        return Ok(());
    }
    places.resize(number + 256, 0)
}

impl NumberSet {
    pub fn new(alloc: Global) -> NumberSet
        ensures { result ≡ [] }
    {
        NumberSet {
            count: 0,
            places: Vec::new(alloc),
        }
    }

    /// Appends a number that isn't there yet; takes room for numbers up to it, and for some more.
    pub fn push(&mut self, number: u32) -> Result<(), AllocError>
        requires small { number < 2 ^ 26 }
        requires absent { (q : ℕ) → q < length self.old → slice_index self.old q ≡ number → ⊥ }
        ensures ok { OnOk result (self.new ≡ self.old ++ number ∷ []) }
        ensures err { OnErr result (self.new ≡ self.old) }
    {
        let at = number as usize;
        reach(&mut self.places, at)?;
        self.count += 1;
        self.places[at] = self.count;
        Ok(())
    }

    /// The place of a number.
    pub fn find(&self, number: u32) -> Option<usize>
        ensures { MatchOption result
            ((q : ℕ) → q < length self.now → slice_index self.now q ≡ number → ⊥)
            (λ q. (q < length self.now) × (slice_index self.now q ≡ number)) }
    {
        let places = self.places.as_slice();
        match places.get(number as usize) {
            Some(place) => (*place as usize).checked_sub(1),
            None => None,
        }
    }
}
