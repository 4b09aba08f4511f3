//! The tables of parts that were checked.
ghost use Rattle.std.specs.Prelude.{◌≡◌, ◌<◌, ◌≤◌, ◌^◌, ◌==◌, ℕ, length};
ghost use Rattle.fort_tables.specs.Entries.{entry};
ghost use Rattle.fort_tables.specs.Tables.{full_presence, IsListed, IsTableEntry};
ghost use Rattle.fort_target_lists.specs.LayRooms.{HasLayRoom};
ghost use Rattle.fort_target_lists.specs.TargetLists.{IsTargetListOf, HasListRoom};
ghost use Rattle.fort_check_steps.specs.Turned.{turned_by, turned_table};
ghost use Rattle.fort_check_steps.specs.Held.{IsRoomTable, own_targets as own_targets_lem, room_table};

use crate::room::PartRoom;
use fort_entry_walk::Entries;
use fort_table::Table;
use fort_target_lists::{LayRoom, TargetList};
use fort_terms::Signature;
use fort_tuple_symbols::TupleSym;
use std::marker::Model;

/// The table of a part that was checked, with so many negations around the part.
#[derive(Drop)]
pub struct PartTable<'a> {
    signature: &'a Signature,
    columns: usize,
    /// Those of the entries over the states that the room holds.
    targets: &'a [u32],
    room: &'a PartRoom,
    turns: usize,
    /// Its targets, tuple symbol by tuple symbol, where they are laid.
    list: Option<&'a TargetList>,
}

impl<'a> Model for PartTable<'a> {
    ghost use Rattle.fort_check_steps.specs.Turned.{TurnedTable};

    ghost Value = { TurnedTable };

    ghost use Rattle.fort_check_steps.specs.TableInside.{table_in, IsPartTable};

    ghost view = { table_in };

    ghost invariant = { IsPartTable };
}

/// The targets of the entries over the states that a room holds.
fn own_targets<'a>(targets: &'a [u32], room: &'a PartRoom) -> &'a [u32]
    ensures { result.now ≡ own_targets_lem targets.now room.now }
{
    if room.is_merged {
        room.merged.as_slice()
    } else {
        targets
    }
}

impl<'a> PartTable<'a> {
    /// The table that a room holds, under so many negations. The part has these targets, which a merge replaces.
    pub fn new(
        signature: &'a Signature,
        columns: usize,
        targets: &'a [u32],
        room: &'a PartRoom,
        turns: usize,
    ) -> PartTable<'a>
        requires { IsRoomTable signature.now columns targets.now room.now }
        ensures table { result.table ≡ room_table signature.now columns targets.now room.now }
        ensures turns { result.turns ≡ turns }
    {
        PartTable {
            signature,
            columns,
            targets: own_targets(targets, room),
            room,
            turns,
            list: None,
        }
    }

    /// The same table with its list, by which targets are found at once; else they are looked for from the first one on.
    pub fn listed(self, list: &'a TargetList) -> PartTable<'a>
        requires { IsTargetListOf (turned_table self) list.now }
        ensures { result ≡ self.entry }
    {
        PartTable {
            signature: self.signature,
            columns: self.columns,
            targets: self.targets,
            room: self.room,
            turns: self.turns,
            list: Some(list),
        }
    }

    /// Lays the table's targets, tuple symbol by tuple symbol, in room that is there. It takes no memory.
    pub fn lay(&self, list: &mut TargetList, room: &mut LayRoom)
        requires list { HasListRoom (length self.now.table.presences)
            (length self.now.table.targets) list.old }
        requires room { HasLayRoom (length self.now.table.presences) room.old }
        ensures list { IsTargetListOf (turned_table self.now) list.new }
        ensures list_room { (n k : ℕ) → HasListRoom n k list.old → HasListRoom n k list.new }
        ensures room { (n : ℕ) → HasLayRoom n room.old → HasLayRoom n room.new }
    {
        list.lay(
            room,
            self.signature,
            self.columns,
            self.room.presences.as_slice(),
            self.targets,
        );
    }

    /// The presences of the states.
    pub fn presences(&self) -> &[u16]
        ensures presences { result.now ≡ self.now.table.presences }
        ensures few { length result.now < 2 ^ 32 }
        ensures lawful { IsListed self.now.table }
    {
        self.room.presences.as_slice()
    }

    /// The states of the entries.
    pub fn targets(&self) -> &[u32]
        ensures targets { result.now ≡ self.now.table.targets }
        ensures lawful { IsListed self.now.table }
    {
        self.targets
    }
}

/// Whether a presence is that of tuples with all columns.
fn is_full(presence: u16, columns: usize) -> bool
    requires { columns ≤ 16 }
    ensures { result ≡ (presence == full_presence columns) }
{
    u32::from(presence) == (1u32 << columns) - 1
}

/// Whether a state is accepting under so many negations.
fn turned(turns: usize, is_full: bool, is_final: bool) -> bool
    ensures { result ≡ turned_by turns is_full is_final }
{
    let mut truth = is_final;
    for turn in 0..turns {
        truth = is_full && !truth;
    }
    truth
}

/// The target of an entry, by a walk through the entries before it.
fn target_by_walk(table: &PartTable<'_>, sym: &TupleSym, kids: &[u32]) -> u32
    requires { IsTableEntry (turned_table table.now) (entry sym.now kids.now) }
    ensures { result ≡ (turned_table table.now).target (entry sym.now kids.now) }
{
    let presences = table.presences();
    let targets = table.targets();
    let mut entries = Entries::new(table.signature, table.columns);
    'targets: for place in 0..targets.len() {
        let _is_there = entries.advance(presences);
        if entries.row().is_entry(sym, kids) {
            return targets[place];
        }
    }
    unreachable!()
}

impl<'a> Table for PartTable<'a> {
    ghost use Rattle.fort_check_steps.specs.Turned.{turned_table};

    ghost table = { turned_table };

    fn signature(&self) -> &Signature {
        self.signature
    }

    fn columns(&self) -> usize {
        self.columns
    }

    fn states(&self) -> u32 {
        self.room.presences.len() as u32
    }

    fn presence(&self, q: u32) -> u16 {
        self.room.presences[q as usize]
    }

    fn is_final(&self, q: u32) -> bool {
        turned(
            self.turns,
            is_full(self.room.presences[q as usize], self.columns),
            self.room.finals[q as usize],
        )
    }

    fn target(&self, sym: &TupleSym, kids: &[u32]) -> u32 {
        match self.list {
            Some(list) => list.target(sym, kids),
            None => target_by_walk(self, sym, kids),
        }
    }
}
