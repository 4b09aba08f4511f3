//! The check of the classes of states.
ghost use Rattle.std.specs.Prelude.{◌≡◌, ℕ, ◌+◌, ◌<◌, ◌≤◌, [], length, vec_capacity, OnOk, OnErr, true, false};
ghost use Rattle.fort_tables.specs.MergeOutcomes.{IsClassAt, AreClassesTo};
ghost use Rattle.fort_check_merges.specs.GivenMerges.{table_in, HasTable, HasStates};
ghost use Rattle.fort_check_merges.specs.MergeAnswers.{IsAnswer};
ghost use Rattle.fort_check_merges.specs.Leaders.{AreLeadersTo, AreClassed};

use crate::given::GivenTable;
use fort_check_steps::{Failure, Reason, failed};

/// Whether a state has a right class, where those before it have. The first state of a new class goes behind those of the others.
fn has_right_class(given: &GivenTable<'_>, q: usize, leaders: &mut Vec<u32>) -> bool
    requires states { HasStates given.now }
    requires state { q < length given.now.classes.now }
    requires leaders { AreLeadersTo given.now.classes.now q leaders.old.items }
    requires room { length given.now.classes.now ≤ vec_capacity leaders.old }
    ensures right { result ≡ true → IsClassAt (table_in given.now) given.now.classes.now q }
    ensures leaders { result ≡ true
        → AreLeadersTo given.now.classes.now (q + 1) leaders.new.items }
    ensures wrong { result ≡ false
        → IsClassAt (table_in given.now) given.now.classes.now q → ⊥ }
    ensures capacity { vec_capacity leaders.new ≡ vec_capacity leaders.old }
{
    let class = given.classes[q] as usize;
    if class == leaders.len() {
        leaders.push_reserved(q as u32);
        return true;
    }
    if class > leaders.len() {
        return false;
    }
    let leader = leaders[class] as usize;
    given.presences[q] == given.presences[leader] && given.finals[q] == given.finals[leader]
}

/// Puts the first state of each class of as many classes as states, or finds the first state that has no right class.
fn check_states(given: &GivenTable<'_>, leaders: &mut Vec<u32>) -> Result<(), Failure>
    requires states { HasStates given.now }
    requires empty { leaders.old.items ≡ [] }
    requires room { length given.now.classes.now ≤ vec_capacity leaders.old }
    ensures fine { OnOk result (AreClassesTo (table_in given.now) given.now.classes.now
        (length given.now.classes.now)) }
    ensures leaders { OnOk result (AreLeadersTo given.now.classes.now
        (length given.now.classes.now) leaders.new.items) }
    ensures wrong { OnErr result (IsAnswer (table_in given.now) given.now.classes.now result) }
    ensures capacity { vec_capacity leaders.new ≡ vec_capacity leaders.old }
{
    'states: for q in 0..given.classes.len() {
        if !has_right_class(given, q, leaders) {
            return failed(q, Reason::Class);
        }
    }
    Ok(())
}

/// Puts the first state of each class, or finds that there are not as many classes as states, or the first state that has no right class.
pub fn check_classes(given: &GivenTable<'_>, leaders: &mut Vec<u32>) -> Result<(), Failure>
    requires table { HasTable given.now }
    requires room { length given.now.presences.now ≤ vec_capacity leaders.old }
    ensures classes { OnOk result (AreClassed (table_in given.now) given.now.classes.now
        leaders.new.items) }
    ensures wrong { OnErr result (IsAnswer (table_in given.now) given.now.classes.now result) }
    ensures capacity { vec_capacity leaders.new ≡ vec_capacity leaders.old }
{
    leaders.clear();
    if given.classes.len() != given.presences.len() {
        return failed(0, Reason::Count);
    }
    check_states(given, leaders)
}
