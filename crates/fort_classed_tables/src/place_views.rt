//! The views of a table's places: places of one view have the same leaders.
ghost use Rattle.std.specs.Prelude.{◌≡◌, ◌⊎◌, ℕ, ◌+◌, ◌^◌, ◌<◌, ◌≤◌, [], length, slice_index, slice_index_or, IfOk, OnOk};
ghost use Rattle.fort_tables.specs.Tuples.{AreSymbols, symbol_kids};
ghost use Rattle.fort_tables.specs.Tables.{listed_table};
ghost use Rattle.fort_target_lists.specs.Flats.{base_of};
ghost use Rattle.fort_tuple_symbols.specs.SymbolNumbers.{columns_at};
ghost use Rattle.fort_classed_tables.specs.CountedTables.{IsCounted};
ghost use Rattle.fort_classed_tables.specs.PlaceLeaders.{view_at, leader_at};
ghost use Rattle.fort_classed_tables.specs.MakingViews.{AreViews, IsLonger, HasPlaces, AreLedTo};

use crate::counted::Counted;
use crate::list_set::ListSet;
use fort_table::Table;
use fort_target_lists::kid_count;
use fort_terms::has_numbers;
use fort_tuple_symbols::TupleSym;
use std::alloc::{AllocError, Global};

/// The views of a table's places.
#[derive(Drop)]
pub struct PlaceViews {
    /// The leader of each state; one that isn't listed is its own. The first view lists none.
    pub views: ListSet,
    /// Where the numbers of a tuple symbol's views start, by the tuple symbol's number.
    pub starts: Vec<usize>,
    /// The number of the view of each place.
    pub numbers: Vec<u32>,
}

impl PlaceViews {
    /// No places.
    pub fn new(alloc: Global) -> Result<PlaceViews, AllocError>
        ensures views { IfOk result (λ v. AreViews v.views) }
        ensures starts { IfOk result (λ v. v.starts.items ≡ []) }
        ensures numbers { IfOk result (λ v. v.numbers.items ≡ []) }
    {
        let mut views = ListSet::new(alloc);
        views.push(Vec::new(alloc))?;
        Ok(PlaceViews {
            views,
            starts: Vec::new(alloc),
            numbers: Vec::new(alloc),
        })
    }

    /// The number of the view with these leaders, which is made where there is none. Where there are as many views as numbers, it is the
    /// first one, where each state is its own leader.
    fn number_of(&mut self, leaders: Vec<u32>) -> Result<u32, AllocError>
        requires views { AreViews self.old.views }
        ensures views { OnOk result (AreViews self.new.views) }
        ensures longer { OnOk result (IsLonger self.old.views self.new.views) }
        ensures within { IfOk result (λ n. n < length self.new.views) }
        ensures is { IfOk result (λ n. (slice_index_or self.new.views n [] ≡ leaders.items)
            ⊎ (slice_index_or self.new.views n [] ≡ [])) }
        ensures starts { self.new.starts.items ≡ self.old.starts.items }
        ensures numbers { self.new.numbers.items ≡ self.old.numbers.items }
    {
        let count = self.views.len();
        match self.views.find(leaders.as_slice()) {
            Some(number) => Ok(number as u32),
            None => {
                if !has_numbers(count) {
                    return Ok(0);
                }
                self.views.push(leaders)?;
                Ok(count as u32)
            }
        }
    }

    /// Appends the numbers of the views of a tuple symbol's places.
    fn add_places(
        &mut self,
        alloc: Global,
        counted: &Counted,
        symbol: &TupleSym,
        kids: usize,
    ) -> Result<(), AllocError>
        requires counted { IsCounted counted.now }
        requires symbols { AreSymbols counted.now.table.now.signature symbol.now }
        requires width { length symbol.now ≡ counted.now.table.now.columns }
        requires kids { kids ≡ symbol_kids counted.now.table.now.signature symbol.now }
        requires few { kids ≤ 8 }
        requires views { AreViews self.old.views }
        ensures places { OnOk result (HasPlaces (listed_table counted.now.table.now) symbol.now kids
            self.old self.new) }
        ensures starts { self.new.starts.items ≡ self.old.starts.items }
    {
        for place in 0..kids {
            let leaders = counted.leaders(alloc, symbol, place, kids)?;
            let number = self.number_of(leaders)?;
            self.numbers.push(number)?;
        }
        Ok(())
    }

    /// Appends the views of the next tuple symbol's places.
    pub fn add_symbol(
        &mut self,
        alloc: Global,
        counted: &Counted,
        symbol: &TupleSym,
    ) -> Result<(), AllocError>
        requires counted { IsCounted counted.now }
        requires symbols { AreSymbols counted.now.table.now.signature symbol.now }
        requires width { length symbol.now ≡ counted.now.table.now.columns }
        requires views { AreViews self.old.views }
        ensures views { OnOk result (AreViews self.new.views) }
        ensures led { OnOk result ((n : ℕ) → symbol.now
            ≡ columns_at (base_of (listed_table counted.now.table.now))
            counted.now.table.now.columns n
            → AreLedTo (listed_table counted.now.table.now) n self.old
            → AreLedTo (listed_table counted.now.table.now) (n + 1) self.new) }
    {
        self.starts.push(self.numbers.len())?;
        let kids = kid_count(counted.table.signature(), symbol);
        self.add_places(alloc, counted, symbol, kids)
    }

    /// The number of the view of a place, by its tuple symbol's number.
    pub fn view(&self, symbol: usize, place: usize) -> u32
        requires symbol { symbol < length self.now.starts.items }
        requires place { slice_index self.now.starts.items symbol + place
            < length self.now.numbers.items }
        ensures { result ≡ view_at self.now.starts.items self.now.numbers.items symbol place }
    {
        // its clause bounds the length
        let _count = self.numbers.len();
        self.numbers[self.starts[symbol] + place]
    }

    /// The leader of a state in a view.
    pub fn leader(&self, view: u32, state: u32) -> u32
        ensures { result ≡ leader_at self.now.views view state }
    {
        let Some(leaders) = self.views.get(view as usize) else {
            return state;
        };
        match leaders.get(state as usize) {
            Some(leader) => *leader,
            None => state,
        }
    }
}

/// The views of all places of a table.
pub fn views_of(alloc: Global, counted: &Counted) -> Result<PlaceViews, AllocError>
    requires { IsCounted counted.now }
    ensures led { IfOk result (AreLedTo (listed_table counted.now.table.now)
        (length counted.now.flat.now.listing.starts.items)) }
{
    // its clause says that the table is lawful
    let columns = counted.table.columns();
    let base = counted.table.signature().len() + 1;
    let mut views = PlaceViews::new(alloc)?;
    let mut symbol = TupleSym::absent(columns);
    'symbols: for _ in 0..counted.flat.listing.starts.len() {
        views.add_symbol(alloc, counted, &symbol)?;
        symbol.to_next(base);
    }
    Ok(views)
}
