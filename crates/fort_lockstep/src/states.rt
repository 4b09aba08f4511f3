//! States, each with the entry that made it.
ghost use Rattle.std.specs.Prelude.{◌≡◌, ◌+◌, ◌<◌, ◌^◌, [], length, OnOk};
ghost use Rattle.fort_lockstep.specs.StateFacts.{IsSameStates, HasRoom, IsNoted};
ghost use Rattle.fort_table.specs.EntryListFacts.{AreSpans};

use fort_table::EntryList;
use fort_tuple_symbols::Row;
use std::alloc::{AllocError, Global};

/// The presences of the states so far, and for each its first entry, with its place among all entries.
#[derive(Drop)]
pub struct States {
    pub presences: Vec<u16>,
    pub firsts: Vec<usize>,
    pub first_entries: EntryList,
}

impl States {
    /// No states yet.
    pub fn new(alloc: Global) -> States
        ensures presences { result.presences.items ≡ [] }
        ensures firsts { result.firsts.items ≡ [] }
        ensures first_entries { result.first_entries.spans.items ≡ [] }
    {
        States {
            presences: Vec::new(alloc),
            firsts: Vec::new(alloc),
            first_entries: EntryList::new(alloc),
        }
    }

    /// Room for the target of an entry, where it is the next new state.
    pub fn make_room(&mut self, target: u32) -> Result<(), AllocError>
        ensures same { IsSameStates self.old self.new }
        ensures room { OnOk result (target ≡ length self.new.presences.items
            → HasRoom self.new) }
    {
        if target as usize != self.presences.len() {
            return Ok(());
        }
        self.presences.reserve(1)?;
        self.firsts.reserve(1)?;
        self.first_entries.make_room()
    }

    /// Notes the target of the entry at this place, which may be a new state.
    pub fn note(&mut self, row: &Row, target: u32, place: usize)
        requires room { target ≡ length self.old.presences.items → HasRoom self.old }
        requires spans { AreSpans self.old.first_entries.numbers.items
            self.old.first_entries.spans.items }
        ensures { IsNoted self.old row.now target place self.new }
    {
        if target as usize == self.presences.len() {
            self.presences.push_reserved(row.presence());
            self.firsts.push_reserved(place);
            self.first_entries.push(row);
        }
    }
}
