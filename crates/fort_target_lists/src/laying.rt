//! The targets of a table are laid: its entries are counted stage by stage first.
ghost use Rattle.std.specs.Prelude.{◌≡◌, ℕ, suc, ◌<◌, ◌≤◌, ◌^◌, List, length, slice_index, vec_capacity};
ghost use Rattle.fort_tables.specs.Entries.{Entry};
ghost use Rattle.fort_tables.specs.Tables as tables;
ghost use Rattle.fort_tables.specs.Laid.{start_of};
ghost use Rattle.fort_target_lists.specs.Flats.{AreLaid, IsFlatOf};
ghost use Rattle.fort_target_lists.specs.Walks.{AreStageCounts, AreStageBegins, IsTakenUp};
ghost use Rattle.fort_target_lists.specs.LayRooms.{HasLayRoomBelow, HasLayRoom, HasFlatRoom};
ghost use Rattle.fort_target_lists.specs.TargetLists.{IsTableWith};

use crate::flat::{FlatTargets, Listing};
use crate::states::{LayRoom, fill_given};
use crate::walk::LayingWalk;
use fort_terms::Signature;

/// Turns how many entries each stage has into where it begins.
fn begin_stages(cursors: &mut [usize])
    requires { (es : List Entry) × AreStageCounts es cursors.old
        × (start_of es (length cursors.old) < 2 ^ 64) }
    ensures size { length cursors.new ≡ length cursors.old }
    ensures begins { (es : List Entry) → AreStageCounts es cursors.old
        → (s : ℕ) → s < length cursors.old → slice_index cursors.new s ≡ start_of es s }
{
    let mut before = 0;
    for s in 0..cursors.len() {
        let count = cursors[s];
        cursors[s] = before;
        before += count;
    }
}

impl LayRoom {
    /// Puts each stage's cursor where the stage's targets begin, for a table whose states are taken up.
    pub fn begin_cursors(
        &mut self,
        signature: &Signature,
        columns: usize,
        base: usize,
        count: usize,
        targets: &[u32],
    )
        requires count { count ≡ base ^ columns }
        requires table { (t : tables.Listed) × IsTakenUp t signature.now columns base targets.now
            self.old }
        requires cursors { suc (length self.old.chains.nexts.items)
            ≤ vec_capacity self.old.cursors }
        ensures begins { (t : tables.Listed)
            → IsTakenUp t signature.now columns base targets.now self.old
            → AreStageBegins t self.new.cursors.items }
        ensures chains { self.new.chains ≡ self.old.chains }
        ensures room { (n : ℕ) → HasLayRoom n self.old → HasLayRoom n self.new }
    {
        fill_given(&mut self.cursors, 0, self.chains.nexts.len() + 1);
        let cursors = self.cursors.as_mut_slice();
        let counting = LayingWalk {
            signature,
            columns,
            base,
            chains: &self.chains,
            targets,
            lays: false,
        };
        counting.pass_all(count, cursors, &mut self.blank);
        begin_stages(cursors);
    }

    /// Lays the targets of a table whose states are taken up.
    pub(crate) fn lay_targets(
        &mut self,
        signature: &Signature,
        columns: usize,
        base: usize,
        count: usize,
        targets: &[u32],
        listing: &mut Listing,
    )
        requires count { count ≡ base ^ columns }
        requires table { (t : tables.Listed) × IsTakenUp t signature.now columns base targets.now
            self.old }
        requires cursors { suc (length self.old.chains.nexts.items)
            ≤ vec_capacity self.old.cursors }
        requires starts { count ≤ vec_capacity listing.old.starts }
        requires targets { length targets.now ≤ vec_capacity listing.old.targets }
        ensures laid { (t : tables.Listed)
            → IsTakenUp t signature.now columns base targets.now self.old
            → AreLaid (tables.listed_table t) base count listing.new.starts.items
            listing.new.targets.items }
        ensures room { (n : ℕ) → HasLayRoom n self.old → HasLayRoom n self.new }
        ensures starts { vec_capacity listing.new.starts ≡ vec_capacity listing.old.starts }
        ensures targets { vec_capacity listing.new.targets ≡ vec_capacity listing.old.targets }
    {
        self.begin_cursors(signature, columns, base, count, targets);
        listing.starts.clear();
        listing.targets.clear();
        let laying = LayingWalk {
            signature,
            columns,
            base,
            chains: &self.chains,
            targets,
            lays: true,
        };
        laying.pass_all(count, self.cursors.as_mut_slice(), listing);
    }
}

impl FlatTargets {
    /// Makes this the list of the table with this signature, these presences and these targets, which stand in the order of its
    /// entries. It takes no memory.
    pub(crate) fn lay(
        &mut self,
        room: &mut LayRoom,
        signature: &Signature,
        columns: usize,
        presences: &[u16],
        targets: &[u32],
    )
        requires few { length presences.now < 2 ^ 32 }
        requires table { (t : tables.Listed) × IsTableWith t signature.now columns presences.now
            targets.now }
        requires room { HasLayRoomBelow (2 ^ columns) (length presences.now) room.old }
        requires list_room { HasFlatRoom (length presences.now)
            (suc (length signature.now) ^ columns) (length targets.now) self.old }
        ensures list { (t : tables.Listed) → IsTableWith t signature.now columns presences.now
            targets.now → IsFlatOf (tables.listed_table t) self.new }
        ensures room { (n : ℕ) → HasLayRoom n room.old → HasLayRoom n room.new }
        ensures list_room { (n s k : ℕ) → HasFlatRoom n s k self.old → HasFlatRoom n s k self.new }
    {
        self.base = signature.len() + 1;
        let count = self.base.pow(columns as u32);
        room.take_up(columns, presences, &mut self.spots);
        room.lay_targets(
            signature,
            columns,
            self.base,
            count,
            targets,
            &mut self.listing,
        );
    }
}
