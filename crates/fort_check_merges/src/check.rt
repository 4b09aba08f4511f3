//! The check of a merge.
ghost use Rattle.std.specs.Prelude.{◌≡◌, ℕ, List, ◌≤◌, length, vec_capacity, OnOk, IsFalse};
ghost use Rattle.fort_tables.specs.Tables.{listed_table};
ghost use Rattle.fort_tables.specs.Laid.{all_entries};
ghost use Rattle.fort_tables.specs.Merges.{merged, IsMerge};
ghost use Rattle.fort_tables.specs.MergeOutcomes.{AreEntriesOf};
ghost use Rattle.fort_certificate_theory.specs.MergeSteps.{listed_merge};
ghost use Rattle.fort_check_steps.specs.Held.{own_targets, room_table, IsRoomTable};
ghost use Rattle.fort_check_steps.specs.Room.{HasRoom, HasMergeRoom, HasFirstRoom, HasLeaderRoom, IsAsRoomy};
ghost use Rattle.fort_check_merges.specs.GivenMerges.{listed_in, table_in, HasTable};
ghost use Rattle.fort_check_merges.specs.MergeAnswers.{IsAnswer};
ghost use Rattle.fort_check_merges.specs.Leaders.{AreClassed};
ghost use Rattle.fort_check_merges.specs.KeptTargets.{kept_targets};

use crate::classes::check_classes;
use crate::entries::check_entries;
use crate::given::GivenTable;
use crate::kept::keep;
use fort_check_steps::{Failure, LabelRoom, PartRoom};
use fort_terms::Signature;

/// Checks the targets of all entries, by a list of them. What is right leaves the targets of the entries over classes.
fn check_targets(
    given: &GivenTable<'_>,
    scratch: &mut LabelRoom,
    merged: &mut Vec<u32>,
) -> Result<(), Failure>
    requires table { HasTable given.now }
    requires classes { AreClassed (table_in given.now) given.now.classes.now
        scratch.old.leaders.items }
    requires scratch { HasFirstRoom given.now.targets.now scratch.old.lists }
    requires room { length given.now.targets.now ≤ vec_capacity merged.old }
    ensures outcome { IsAnswer (table_in given.now) given.now.classes.now result }
    ensures merged { OnOk result (merged.new.items ≡ kept_targets (table_in given.now)
        given.now.classes.now (listed_in given.now).entries) }
    ensures leaders { scratch.new.leaders.items ≡ scratch.old.leaders.items }
    ensures scratch { IsAsRoomy scratch.old scratch.new }
    ensures capacity { vec_capacity merged.new ≡ vec_capacity merged.old }
{
    merged.clear();
    scratch.lists.first.lay(
        &mut scratch.lists.lay,
        given.signature,
        given.columns,
        given.presences,
        given.targets,
    );
    check_entries(
        given,
        scratch.leaders.as_slice(),
        &scratch.lists.first,
        merged,
    )
}

/// Whether these classes are a merge of the table that a room holds, or where they first fail. Where they are, the room holds the table
/// of the classes from then on.
pub fn check_merge(
    signature: &Signature,
    columns: usize,
    targets: &[u32],
    classes: &[u32],
    room: &mut PartRoom,
    scratch: &mut LabelRoom,
) -> Result<(), Failure>
    requires table { IsRoomTable signature.now columns targets.now room.old }
    requires not_merged { IsFalse room.old.is_merged }
    requires room { HasMergeRoom targets.now room.old }
    requires scratch { HasLeaderRoom targets.now scratch.old }
    ensures outcome { IsAnswer (listed_table (room_table signature.now columns targets.now
        room.old)) classes.now result }
    ensures merge { OnOk result (IsMerge (listed_table (room_table signature.now columns targets.now
        room.old)) classes.now) }
    ensures merged { OnOk result (room_table signature.now columns targets.now room.new
        ≡ listed_merge (listed_table (room_table signature.now columns targets.now room.old))
        classes.now (all_entries signature.now columns room.new.presences.items)) }
    ensures entries { OnOk result (AreEntriesOf (merged (listed_table (room_table signature.now
        columns targets.now room.old)) classes.now) (all_entries signature.now columns
        room.new.presences.items)) }
    ensures held { OnOk result (IsRoomTable signature.now columns targets.now room.new) }
    ensures fewer { OnOk result (length (own_targets targets.now room.new) ≤ length targets.now) }
    ensures room { (qs : List ℕ) → HasRoom qs room.old → HasRoom qs room.new }
    ensures merge_room { (qs : List ℕ) → HasMergeRoom qs room.old → HasMergeRoom qs room.new }
    ensures scratch { IsAsRoomy scratch.old scratch.new }
{
    let given = GivenTable {
        signature,
        columns,
        presences: room.presences.as_slice(),
        finals: room.finals.as_slice(),
        targets,
        classes,
    };
    match check_classes(&given, &mut scratch.leaders) {
        Ok(()) => {}
        Err(failure) => return Err(failure),
    }
    // nothing is joined: the table stays as it is
    if scratch.leaders.len() == classes.len() {
        return Ok(());
    }
    match check_targets(&given, scratch, &mut room.merged) {
        Ok(()) => {}
        Err(failure) => return Err(failure),
    }
    let leaders = scratch.leaders.as_slice();
    keep(leaders, &mut room.presences);
    keep(leaders, &mut room.finals);
    room.is_merged = true;
    Ok(())
}
