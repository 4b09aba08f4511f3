//! First children of entries under one tuple symbol, with the leaders of their classes.
ghost use Rattle.std.specs.Prelude.{◌≡◌, ℕ, ◌-◌, ◌<◌, ◌≤◌, take, length, slice_index_or, true};
ghost use Rattle.fort_tables.specs.Entries.{entry};
ghost use Rattle.fort_tables.specs.Tables.{listed_table, IsTableEntry};
ghost use Rattle.fort_tables.specs.Refinement.{IsRefined};
ghost use Rattle.fort_reduce.specs.Walks.{IsWholeIn};
ghost use Rattle.fort_reduce.specs.Fronts.{IsFront};

use crate::classes::Classes;
use crate::led::{is_led, leader_of, put_leaders};
use crate::targets::Targets;
use fort_table::Table;

/// The first children of entries that differ in their last child alone: what these entries' targets are found by.
#[derive(Drop)]
pub struct Front {
    /// The place of the children.
    pub place: usize,
    /// The leaders of their classes, with room for the last child's.
    pub leaders: [u32; 8],
    /// The place of the leaders.
    pub led_place: usize,
    /// Whether each child is the leader of its class.
    pub is_led: bool,
}

impl Front {
    /// Of these children.
    pub fn of(targets: &Targets, kids: &[u32], classes: &Classes) -> Front
        requires few { length kids.now ≤ 8 }
        requires states { (i : ℕ) → i < length kids.now → slice_index_or kids.now i 0
            < length targets.now.table.now.presences }
        requires refined { IsRefined (listed_table targets.now.table.now) classes.now.of.items
            classes.now.leaders.items }
        ensures { IsFront targets.now classes.now.of.items classes.now.leaders.items
            kids.now result }
    {
        let mut leaders = [0u32; 8];
        put_leaders(kids, classes, leaders.as_mut_slice());
        let led_place = targets.place(&leaders[..kids.len()]);
        Front {
            place: targets.place(kids),
            leaders,
            led_place,
            is_led: is_led(kids, classes),
        }
    }

    /// Whether the entry over these children leads to the class to which it leads with their leaders.
    pub fn is_whole(&self, targets: &Targets, kids: &[u32], classes: &Classes) -> bool
        requires some { 0 < length kids.now }
        requires few { length kids.now ≤ 8 }
        requires entry { IsTableEntry (listed_table targets.now.table.now)
            (entry targets.now.symbol kids.now) }
        requires refined { IsRefined (listed_table targets.now.table.now) classes.now.of.items
            classes.now.leaders.items }
        requires front { IsFront targets.now classes.now.of.items
            classes.now.leaders.items (take (length kids.now - 1) kids.now) self.now }
        ensures { result ≡ true → IsWholeIn (listed_table targets.now.table.now)
            classes.now.of.items classes.now.leaders.items (entry targets.now.symbol kids.now) }
    {
        // its clause says that the table is lawful
        let _states = targets.table.states();
        let j = kids.len() - 1;
        let leader = leader_of(classes, kids[j]);
        if self.is_led && leader == kids[j] {
            return true;
        }
        let mut leaders = self.leaders;
        leaders[j] = leader;
        let target = targets.target_behind(kids, self.place);
        let there = targets.target_behind(&leaders[..kids.len()], self.led_place);
        classes.of[target as usize] == classes.of[there as usize]
    }
}
