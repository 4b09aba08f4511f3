//! The views that were met, found by what they ask, and for each tuple symbol that was met those of its places.
ghost use Rattle.std.specs.Prelude.{◌≡◌, ℕ, ◌+◌, ◌<◌, ◌≤◌, ◌^◌, List, [], ◌∷◌, ◌++◌, map, length, slice_index, slice_index_or, IfOk, OnOk};
ghost use Rattle.fort_theory.specs.Signatures as theory;
ghost use Rattle.fort_tuple_symbols.specs.Columns.{symbol_of};
ghost use Rattle.fort_tuple_symbols.specs.DigitNumbers.{AreDigits};
ghost use Rattle.fort_views.specs.SymbolViews.{sight, AreSights, HasSightsAt, AreViewsUpTo, AreSymbolRows, MayFind, HasMoreViews, HasPlaces, HasSameSights, KeepsSymbols, HaveTaken, view_leaders_of, view_classes_of};

use crate::key_set::KeySet;
use crate::place_views::PlaceViews;
use crate::view::View;
use fort_label_keys::LabelKeys;
use fort_labels::Rows;
use fort_terms::Signature;
use fort_tuple_symbols::{SymbolSet, TupleSym};
use std::alloc::{AllocError, Global};

/// Views, and those of the places under each tuple symbol that was met.
#[derive(Drop)]
pub struct Views {
    pub views: Vec<View>,
    /// The presence and the words of each view.
    pub sights: KeySet,
    pub symbols: SymbolSet,
    /// For each tuple symbol that was met where its views' numbers begin.
    pub starts: Vec<usize>,
    pub numbers: Vec<usize>,
}

/// A presence and words as one list.
fn sight_of(alloc: Global, presence: u32, words: &[u64]) -> Result<Vec<u64>, AllocError>
    ensures { IfOk result (λ s. s.items ≡ presence ∷ words.now) }
{
    let mut sight = Vec::new(alloc);
    sight.push(u64::from(presence))?;
    sight.extend_from_slice(words)?;
    Ok(sight)
}

impl Views {
    /// No views.
    pub fn new(alloc: Global, sig: &Signature, columns: usize) -> Views
        requires { columns ≤ 16 }
        ensures base { result.symbols.base ≡ length sig.now + 1 }
        ensures columns { result.symbols.columns ≡ columns }
        ensures symbols { result.symbols.digits ≡ [] }
        ensures starts { result.starts.items ≡ [] }
        ensures sights { result.sights ≡ [] }
        ensures none { result.views.items ≡ [] }
    {
        let base = sig.len() as u32 + 1;
        Views {
            views: Vec::new(alloc),
            sights: KeySet::new(alloc),
            symbols: SymbolSet::new(alloc, base, columns),
            starts: Vec::new(alloc),
            numbers: Vec::new(alloc),
        }
    }

    /// The number of the view of a place with a presence, which is made where there is none.
    fn number_of<K: LabelKeys>(
        &mut self,
        keys: &K,
        symbol: &TupleSym,
        place: usize,
        presence: u32,
    ) -> Result<usize, AllocError>
        requires place { place < 8 }
        requires sights { self.old.sights ≡ map sight self.old.views.items }
        ensures number { IfOk result (λ n. n < length self.new.sights) }
        ensures is { IfOk result (λ n. slice_index_or self.new.sights n []
            ≡ presence ∷ K.view keys.now symbol.now place) }
        ensures more { OnOk result (HasMoreViews (K.view keys.now) self.old self.new) }
        ensures few { OnOk result (length self.new.views.items
            ≤ length self.old.views.items + 1) }
        ensures others { KeepsSymbols self.old self.new }
    {
        let alloc = self.sights.allocator();
        let mut words = Vec::new(alloc);
        keys.write_view(symbol, place, &mut words)?;
        let sight = sight_of(alloc, presence, words.as_slice())?;
        match self.sights.find(sight.as_slice()) {
            Some(number) => Ok(number),
            None => {
                let number = self.views.len();
                self.sights.push(sight)?;
                self.views.push(View::new(alloc, presence, words))?;
                Ok(number)
            }
        }
    }

    /// Appends the numbers of the views of a tuple symbol's places.
    fn add_places<K: LabelKeys>(
        &mut self,
        keys: &K,
        symbol: &TupleSym,
        wanted: &[u32],
    ) -> Result<(), AllocError>
        requires places { length wanted.now ≤ 8 }
        requires sights { self.old.sights ≡ map sight self.old.views.items }
        ensures more { OnOk result (HasMoreViews (K.view keys.now) self.old self.new) }
        ensures places { OnOk result (HasPlaces (K.view keys.now) symbol.now wanted.now self.old
            self.new) }
        ensures few { OnOk result (length self.new.views.items
            ≤ length self.old.views.items + length wanted.now) }
        ensures symbols { self.new.symbols ≡ self.old.symbols }
        ensures starts { self.new.starts.items ≡ self.old.starts.items }
    {
        for place in 0..wanted.len() {
            let number = self.number_of(keys, symbol, place, wanted[place])?;
            self.numbers.push(number)?;
        }
        Ok(())
    }

    /// Where the views of a tuple symbol begin that wasn't met before.
    fn add_symbol<K: LabelKeys>(
        &mut self,
        keys: &K,
        digits: &[u32],
        wanted: &[u32],
    ) -> Result<usize, AllocError>
        requires short { length digits.now ≤ 16 }
        requires small { (k : ℕ) → slice_index_or digits.now k 0 ≤ 65536 }
        requires places { length wanted.now ≤ 8 }
        requires known { (sig : theory.Signature) × (columns : ℕ)
            × MayFind (K.view keys.now) sig columns digits.now wanted.now self.old }
        requires absent { (q : ℕ) → q < length self.old.symbols.digits
            → slice_index_or self.old.symbols.digits q [] ≡ digits.now → ⊥ }
        ensures known { OnOk result ((sig : theory.Signature) (columns : ℕ)
            → MayFind (K.view keys.now) sig columns digits.now wanted.now self.old
            → AreSymbolRows (K.view keys.now) sig columns self.new) }
        ensures more { OnOk result (HasMoreViews (K.view keys.now) self.old self.new) }
        ensures start { IfOk result (HasSightsAt (K.view keys.now) (symbol_of digits.now) wanted.now
            self.new.sights self.new.numbers.items) }
        ensures few { OnOk result (length self.new.views.items
            ≤ length self.old.views.items + length wanted.now) }
    {
        let start = self.numbers.len();
        self.add_places(keys, &TupleSym::from_digits(digits), wanted)?;
        self.starts.push(start)?;
        self.symbols.push(self.sights.allocator(), digits)?;
        Ok(start)
    }

    /// Where the views of a tuple symbol begin.
    fn start_of<K: LabelKeys>(
        &mut self,
        keys: &K,
        digits: &[u32],
        wanted: &[u32],
    ) -> Result<usize, AllocError>
        requires short { length digits.now ≤ 16 }
        requires small { (k : ℕ) → slice_index_or digits.now k 0 ≤ 65536 }
        requires places { length wanted.now ≤ 8 }
        requires known { (sig : theory.Signature) × (columns : ℕ)
            × MayFind (K.view keys.now) sig columns digits.now wanted.now self.old }
        ensures known { OnOk result ((sig : theory.Signature) (columns : ℕ)
            → MayFind (K.view keys.now) sig columns digits.now wanted.now self.old
            → AreSymbolRows (K.view keys.now) sig columns self.new) }
        ensures more { OnOk result (HasMoreViews (K.view keys.now) self.old self.new) }
        ensures start { IfOk result (HasSightsAt (K.view keys.now) (symbol_of digits.now) wanted.now
            self.new.sights self.new.numbers.items) }
        ensures few { OnOk result (length self.new.views.items
            ≤ length self.old.views.items + length wanted.now) }
    {
        match self.symbols.find(digits) {
            Some(number) => Ok(self.starts[number]),
            None => self.add_symbol(keys, digits, wanted),
        }
    }

    /// The views of a tuple symbol's places.
    pub fn places<K: LabelKeys>(
        &mut self,
        keys: &K,
        digits: &[u32],
        wanted: &[u32],
    ) -> Result<PlaceViews, AllocError>
        requires short { length digits.now ≤ 16 }
        requires small { (k : ℕ) → slice_index_or digits.now k 0 ≤ 65536 }
        requires places { length wanted.now ≤ 8 }
        requires known { (sig : theory.Signature) × (columns : ℕ)
            × MayFind (K.view keys.now) sig columns digits.now wanted.now self.old }
        ensures known { OnOk result ((sig : theory.Signature) (columns : ℕ)
            → MayFind (K.view keys.now) sig columns digits.now wanted.now self.old
            → AreSymbolRows (K.view keys.now) sig columns self.new) }
        ensures more { OnOk result (HasMoreViews (K.view keys.now) self.old self.new) }
        ensures places { IfOk result (AreSights (K.view keys.now) (symbol_of digits.now) wanted.now
            self.new.sights) }
        ensures few { OnOk result (length self.new.views.items
            ≤ length self.old.views.items + length wanted.now) }
    {
        let start = self.start_of(keys, digits, wanted)?;
        let numbers = self.numbers.as_slice();
        Ok(PlaceViews::of(&numbers[start..start + wanted.len()]))
    }

    /// Takes up the states before this one at some views; the list is for their keys alone.
    pub fn take_up<K: LabelKeys>(
        &mut self,
        keys: &K,
        rows: &Rows,
        numbers: &[usize],
        until: u32,
        key: &mut Vec<u64>,
    ) -> Result<(), AllocError>
        requires numbers { (j : ℕ) → j < length numbers.now
            → slice_index numbers.now j < length self.old.views.items }
        requires width { rows.now.width ≡ K.word_count keys.now }
        requires few { length rows.now.labels < 2 ^ 32 }
        requires within { until ≤ length rows.now.labels }
        requires known { AreViewsUpTo (K.view keys.now) (K.key keys.now) rows.now.labels until
            self.old.views.items }
        ensures known { OnOk result (AreViewsUpTo (K.view keys.now) (K.key keys.now) rows.now.labels
            until self.new.views.items) }
        ensures taken { OnOk result (HaveTaken until self.new.views.items numbers.now) }
        ensures sights { OnOk result (HasSameSights self.old self.new) }
        ensures others { KeepsSymbols self.old self.new }
    {
        for number in numbers {
            let view = &mut self.views[*number];
            view.take_up(keys, rows, until, key)?;
        }
        Ok(())
    }

    /// The leaders of a view.
    pub fn leaders(&self, number: usize) -> &[u32]
        ensures { result.now ≡ slice_index_or (map view_leaders_of self.now.views.items) number [] }
    {
        match self.views.get(number) {
            Some(view) => view.leaders.as_slice(),
            None => &[],
        }
    }

    /// The classes of the states of a view, by their ranks.
    pub fn classes(&self, number: usize) -> &[u32]
        ensures { result.now ≡ slice_index_or (map view_classes_of self.now.views.items) number [] }
    {
        match self.views.get(number) {
            Some(view) => view.classes.as_slice(),
            None => &[],
        }
    }

    /// The class of a state in a view, by its rank among the states of the presence.
    pub fn class_of(&self, number: usize, rank: usize) -> u32
        requires view { number < length self.now.views.items }
        requires rank { rank < length (slice_index_or (map view_classes_of self.now.views.items)
            number []) }
        ensures { result ≡ slice_index (slice_index_or (map view_classes_of self.now.views.items)
            number []) rank }
    {
        self.views[number].class_of(rank)
    }
}
