//! A table whose states are counted by their presences, and the leaders at its places.
ghost use Rattle.std.specs.Prelude.{◌≡◌, ◌+◌, ◌-◌, ◌<◌, ◌≤◌, ◌^◌, min, length, IfOk};
ghost use Rattle.fort_tables.specs.Tuples.{AreSymbols, IsTupleSymbol, symbol_kids, kid_presence as kid_presence_lem};
ghost use Rattle.fort_tables.specs.Tables.{listed_table, IsListed};
ghost use Rattle.fort_target_lists.specs.Places.{AreCounts};
ghost use Rattle.fort_target_lists.proofs.PlaceLaws.{room as room_lem};
ghost use Rattle.fort_classed_tables.specs.CountedTables.{IsCounted, AreColumnsAt};
ghost use Rattle.fort_classed_tables.specs.PlaceLeaders.{IsLedPlace, leader_in};

use crate::columns::Columns;
use crate::leaders::leaders_by;
use fort_lockstep::Dta;
use fort_table::Table;
use fort_target_lists::{FlatTargets, kid_presence};
use fort_tuple_symbols::TupleSym;
use std::alloc::{AllocError, Global};

/// A table, its targets in one list, and how many of its states have each presence.
#[derive(Clone, Copy)]
pub struct Counted<'a> {
    pub table: &'a Dta,
    pub flat: &'a FlatTargets,
    pub counts: &'a [u32],
}

/// How many states have each presence.
pub fn count_states(alloc: Global, table: &Dta) -> Result<Vec<u32>, AllocError>
    ensures counts { IfOk result (λ counts. AreCounts table.now.presences counts.items) }
    ensures size { IfOk result (λ counts. length counts.items ≡ 2 ^ table.now.columns) }
{
    // its clause says that the table is lawful
    let _listed = table.entries();
    let mut counts = vec![in alloc; 0u32; 2usize.pow(table.columns() as u32)]?;
    for q in 0..table.states() {
        let presence = table.presence(q) as usize;
        counts[presence] += 1;
    }
    Ok(counts)
}

impl<'a> Counted<'a> {
    /// How many lists of states there are for some children, from one place on; at most `usize::MAX` is told.
    fn room(&self, symbol: &TupleSym, from: usize, places: usize) -> usize
        requires counted { IsCounted self.now }
        requires symbols { AreSymbols self.now.table.now.signature symbol.now }
        requires width { length symbol.now ≡ self.now.table.now.columns }
        requires few { from + places ≤ 8 }
        ensures { result ≡ min (room_lem self.now.table.now.presences
            (kid_presence_lem self.now.table.now.signature symbol.now) from places) (2 ^ 64 - 1) }
    {
        let signature = self.table.signature();
        let mut room = 1usize;
        for i in 0..places {
            let presence = kid_presence(signature, symbol, from + i) as usize;
            room = room.saturating_mul(self.counts[presence] as usize);
        }
        room
    }

    /// The targets under a tuple symbol with `kids` children that has entries, by the child at a place.
    fn columns(&self, symbol: &TupleSym, place: usize, kids: usize) -> Columns<'a>
        requires counted { IsCounted self.now }
        requires symbol { IsTupleSymbol self.now.table.now.signature self.now.table.now.columns
            symbol.now }
        requires kids { kids ≡ symbol_kids self.now.table.now.signature symbol.now }
        requires few { kids ≤ 8 }
        requires place { place < kids }
        requires some { 0 < room_lem self.now.table.now.presences
            (kid_presence_lem self.now.table.now.signature symbol.now) 0 kids }
        ensures { AreColumnsAt (listed_table self.now.table.now) self.now.flat.now symbol.now place
            result }
    {
        let presence = kid_presence(self.table.signature(), symbol, place) as usize;
        let flat = self.flat;
        // its clause bounds the length
        let _count = flat.listing.targets.len();
        Columns {
            targets: flat.listing.targets.as_slice(),
            start: flat.start(flat.number(symbol)),
            outer: self.room(symbol, 0, place),
            count: self.counts[presence] as usize,
            inner: self.room(symbol, place + 1, kids - place - 1),
        }
    }

    /// The leader of each state at a place under a tuple symbol with `kids` children; none where it has no entries.
    pub fn leaders(
        &self,
        alloc: Global,
        symbol: &TupleSym,
        place: usize,
        kids: usize,
    ) -> Result<Vec<u32>, AllocError>
        requires counted { IsCounted self.now }
        requires symbol { IsTupleSymbol self.now.table.now.signature self.now.table.now.columns
            symbol.now }
        requires kids { kids ≡ symbol_kids self.now.table.now.signature symbol.now }
        requires few { kids ≤ 8 }
        requires place { place < kids }
        ensures { IfOk result (λ ls. IsLedPlace (listed_table self.now.table.now) symbol.now place
            (leader_in ls.items)) }
    {
        if self.room(symbol, 0, kids) == 0 {
            return Ok(Vec::new(alloc));
        }
        let presence = kid_presence(self.table.signature(), symbol, place);
        let columns = self.columns(symbol, place, kids);
        let ranks = self.flat.spots.ranks.as_slice();
        leaders_by(alloc, self.table, ranks, presence, &columns)
    }
}
