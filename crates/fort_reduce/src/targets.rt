//! The targets under one tuple symbol.
ghost use Rattle.std.specs.Prelude.{◌≡◌, ℕ, ◌-◌, ◌<◌, take, length, slice_index_or};
ghost use Rattle.fort_tables.specs.Tuples.{AreSymbols};
ghost use Rattle.fort_tables.specs.Entries.{entry};
ghost use Rattle.fort_tables.specs.Tables.{listed_table, IsTableEntry};
ghost use Rattle.fort_target_lists.specs.Flats.{IsFlatOf};
ghost use Rattle.fort_reduce.specs.Finding.{IsStartIn, place_in};

use fort_lockstep::Dta;
use fort_target_lists::FlatTargets;
use fort_tuple_symbols::TupleSym;

/// The targets of a table under one tuple symbol, found in the table's list.
#[derive(Drop)]
pub struct Targets<'a> {
    pub table: &'a Dta,
    pub symbol: TupleSym,
    pub list: &'a FlatTargets,
    /// Where they start in the list.
    pub start: usize,
    ghost finds: { IsStartIn (listed_table table.now) symbol list.now start },
}

impl<'a> Targets<'a> {
    /// Those of this tuple symbol.
    pub fn of(table: &'a Dta, list: &'a FlatTargets, symbol: &TupleSym) -> Targets<'a>
        requires list { IsFlatOf (listed_table table.now) list.now }
        requires symbols { AreSymbols table.now.signature symbol.now }
        requires width { length symbol.now ≡ table.now.columns }
        ensures table { result.table.now ≡ table.now }
        ensures symbol { result.symbol ≡ symbol.now }
    {
        Targets {
            table,
            symbol: *symbol,
            list,
            start: list.start(list.number(symbol)),
        }
    }

    /// The target over these child states.
    pub fn target(&self, kids: &[u32]) -> u32
        requires { IsTableEntry (listed_table self.now.table.now) (entry self.now.symbol kids.now) }
        ensures { result ≡ (listed_table self.now.table.now).target
            (entry self.now.symbol kids.now) }
    {
        self.list.target(self.start, kids)
    }

    /// The place of first child states in the list.
    pub fn place(&self, kids: &[u32]) -> usize
        requires { (i : ℕ) → i < length kids.now → slice_index_or kids.now i 0
            < length self.now.table.now.presences }
        ensures { result ≡ place_in self.now.list.now kids.now }
    {
        self.list.spots.place_of(kids)
    }

    /// The target over these child states, of which those before the last one are at this place.
    pub fn target_behind(&self, kids: &[u32], place: usize) -> u32
        requires some { 0 < length kids.now }
        requires entry { IsTableEntry (listed_table self.now.table.now)
            (entry self.now.symbol kids.now) }
        requires place { place ≡ place_in self.now.list.now (take (length kids.now - 1) kids.now) }
        ensures { result ≡ (listed_table self.now.table.now).target
            (entry self.now.symbol kids.now) }
    {
        // its clause bounds the length
        let _count = self.list.listing.targets.len();
        self.list
            .target_behind(self.start, place, kids[kids.len() - 1] as usize)
    }
}
