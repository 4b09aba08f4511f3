//! The check of the entries' targets, and the targets of the entries over classes.
ghost use Rattle.std.specs.Prelude.{◌≡◌, ℕ, ◌<◌, ◌≤◌, ◌++◌, [], length, slice_index_or, vec_len, vec_capacity, OnOk, true, false};
ghost use Rattle.fort_tables.specs.Tables.{IsTableEntry};
ghost use Rattle.fort_tables.specs.Merges.{leader};
ghost use Rattle.fort_tables.specs.MergeOutcomes.{IsWholeAt};
ghost use Rattle.fort_target_lists.specs.TargetLists.{IsTargetListOf};
ghost use Rattle.fort_check_merges.specs.GivenMerges.{table_in, listed_in, IsGiven};
ghost use Rattle.fort_check_merges.specs.MergeAnswers.{IsAnswer};
ghost use Rattle.fort_check_merges.specs.Leaders.{AreClassed, AreLeadersTo};
ghost use Rattle.fort_check_merges.specs.KeptTargets.{kept_target, kept_targets};

use crate::given::GivenTable;
use fort_check_steps::{Failure, Reason, failed};
use fort_entry_walk::Entries;
use fort_target_lists::TargetList;
use fort_tuple_symbols::Row;

/// Puts the first states of the children's classes into a buffer.
fn put_leaders(kids: &[u32], classes: &[u32], leaders: &[u32], states: &mut [u32])
    requires within { (j : ℕ) → j < length kids.now
        → slice_index_or kids.now j 0 < length classes.now }
    requires leaders { AreLeadersTo classes.now (length classes.now) leaders.now }
    requires room { length kids.now ≤ length states.old }
    ensures { (j : ℕ) → j < length kids.now → slice_index_or states.new j 0
        ≡ leader classes.now (slice_index_or kids.now j 0) }
{
    for j in 0..kids.len() {
        states[j] = leaders[classes[kids[j] as usize] as usize];
    }
}

/// Whether an entry's target has the class of that of the entry over its children's first states. Where it is that entry, the class is
/// the target of an entry over classes, and goes behind those before it.
fn is_whole(
    given: &GivenTable<'_>,
    leaders: &[u32],
    list: &TargetList,
    row: &Row,
    target: u32,
    merged: &mut Vec<u32>,
) -> bool
    requires given { IsGiven given.now }
    requires classes { AreClassed (table_in given.now) given.now.classes.now leaders.now }
    requires list { IsTargetListOf (table_in given.now) list.now }
    requires entry { IsTableEntry (table_in given.now) row.now }
    requires target { target ≡ (table_in given.now).target row.now }
    requires spare { vec_len merged.old < vec_capacity merged.old }
    ensures whole { result ≡ true
        → IsWholeAt (table_in given.now) given.now.classes.now row.now }
    ensures split { result ≡ false
        → IsWholeAt (table_in given.now) given.now.classes.now row.now → ⊥ }
    ensures merged { result ≡ true → merged.new.items
        ≡ merged.old.items ++ kept_target (table_in given.now) given.now.classes.now row.now }
    ensures capacity { vec_capacity merged.new ≡ vec_capacity merged.old }
{
    let kids = row.kids();
    let class = given.classes[target as usize];
    let mut states = [0u32; 8];
    put_leaders(kids, given.classes, leaders, states.as_mut_slice());
    let led = &states[..kids.len()];
    if led == kids {
        merged.push_reserved(class);
        return true;
    }
    let other = list.target(&row.sym(), led);
    given.classes[other as usize] == class
}

/// Puts the targets of the entries over classes, or finds the first entry that leads to another class than the entry over its
/// children's first states.
pub fn check_entries(
    given: &GivenTable<'_>,
    leaders: &[u32],
    list: &TargetList,
    merged: &mut Vec<u32>,
) -> Result<(), Failure>
    requires given { IsGiven given.now }
    requires classes { AreClassed (table_in given.now) given.now.classes.now leaders.now }
    requires list { IsTargetListOf (table_in given.now) list.now }
    requires empty { merged.old.items ≡ [] }
    requires room { length given.now.targets.now ≤ vec_capacity merged.old }
    ensures outcome { IsAnswer (table_in given.now) given.now.classes.now result }
    ensures merged { OnOk result (merged.new.items ≡ kept_targets (table_in given.now)
        given.now.classes.now (listed_in given.now).entries) }
    ensures capacity { vec_capacity merged.new ≡ vec_capacity merged.old }
{
    let mut entries = Entries::new(given.signature, given.columns);
    'entries: for place in 0..given.targets.len() {
        let _is_there = entries.advance(given.presences);
        let target = given.targets[place];
        if !is_whole(given, leaders, list, entries.row(), target, merged) {
            return failed(place, Reason::Split);
        }
    }
    Ok(())
}
