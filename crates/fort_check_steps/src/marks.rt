//! The check of the marks of pure states.
ghost use Rattle.std.specs.Prelude.{◌≡◌, ℕ, ◌^◌, ◌<◌, ◌≤◌, [], map, length, slice_index_or, vec_capacity, true, false, IfSome, IfNone, ◌&&◌, ◌||◌};
ghost use Rattle.fort_tables.specs.Tuples.{presence};
ghost use Rattle.fort_tables.specs.Entries.{Entry};
ghost use Rattle.fort_tables.specs.Tables.{IsListed};
ghost use Rattle.fort_tables.specs.Projections.{ArePure};
ghost use Rattle.fort_tables.specs.Counts.{count_at};
ghost use Rattle.fort_certificate_theory.specs.CountSteps.{IsCountOutcome};
ghost use Rattle.fort_findings.specs.FindingView.{as_count};
ghost use Rattle.fort_check_steps.specs.Marks.{HasMarkRoom, mark_in, is_below as is_below_lem, are_below as are_below_lem, held_next, entry_next, starts, mark_test, IsSeenTo, IsFirstWrong, AreAllHeld, wrong_reason};
ghost use Rattle.fort_check_steps.specs.StepAnswers.{as_reason, outcome_of};
ghost use Rattle.fort_check_steps.specs.Turned.{turned_table};

use crate::failure::{Failure, Reason, failed};
use crate::table::PartTable;
use fort_entry_walk::Entries;
use fort_findings::Count;
use fort_table::Table;

/// What is read of a part's operand: its pure states, and for each whether its mark holds by what was seen.
#[derive(Drop)]
pub struct MarkRoom {
    pub states: Vec<u32>,
    pub holds: Vec<bool>,
}

/// Puts the states in which this column alone is present, ascending.
pub fn put_pure<T: Table>(table: &T, column: usize, states: &mut Vec<u32>)
    requires column { column < (T.table table.now).columns }
    requires empty { states.old.items ≡ [] }
    requires spare { length (T.table table.now).presences ≤ vec_capacity states.old }
    ensures pure { ArePure (T.table table.now) column states.new.items }
    ensures capacity { vec_capacity states.new ≡ vec_capacity states.old }
{
    // its clause says that the table is lawful
    let _columns = table.columns();
    for q in 0..table.states() {
        if table.presence(q) == 1 << column {
            states.push_reserved(q);
        }
    }
}

/// Puts what is so of each mark before an entry was seen.
fn put_starts(marks: &[Count], holds: &mut Vec<bool>)
    requires empty { holds.old.items ≡ [] }
    requires spare { length marks.now ≤ vec_capacity holds.old }
    ensures starts { holds.new.items ≡ map (λ mark. starts (as_count mark)) marks.now }
    ensures capacity { vec_capacity holds.new ≡ vec_capacity holds.old }
{
    for mark in marks {
        holds.push_reserved(!mark.is_infinite());
    }
}

/// The mark beside a state, or one of height 0.
fn mark_of(states: &[u32], marks: &[Count], k: u32) -> Count
    requires ascending { (i j : ℕ) → i < j → j < length states.now
        → slice_index_or states.now i 0 < slice_index_or states.now j 0 }
    requires sizes { length marks.now ≡ length states.now }
    ensures { as_count result ≡ count_at states.now (map as_count marks.now) k }
{
    match states.binary_search(&k) {
        Ok(place) => marks[place],
        Err(_) => Count::Finite(0),
    }
}

/// Whether the mark is finite with a number below this.
fn is_below(mark: Count, most: u32) -> bool
    ensures { result ≡ is_below_lem (as_count mark) most }
{
    match mark {
        Count::Finite(height) => height < most,
        Count::Infinite(_) => false,
    }
}

/// Whether all of these states are marked finite with a number below this.
fn are_below(states: &[u32], marks: &[Count], kids: &[u32], most: u32) -> bool
    requires ascending { (i j : ℕ) → i < j → j < length states.now
        → slice_index_or states.now i 0 < slice_index_or states.now j 0 }
    requires sizes { length marks.now ≡ length states.now }
    ensures { result ≡ are_below_lem (count_at states.now (map as_count marks.now)) most kids.now }
{
    match kids.split_first() {
        None => true,
        Some((kid, kids)) => {
            is_below(mark_of(states, marks, *kid), most) && are_below(states, marks, kids, most)
        }
    }
}

/// Whether a mark still holds, or holds now, where an entry with these child states gives its state.
fn holds_after(states: &[u32], marks: &[Count], mark: Count, held: bool, kids: &[u32]) -> bool
    requires ascending { (i j : ℕ) → i < j → j < length states.now
        → slice_index_or states.now i 0 < slice_index_or states.now j 0 }
    requires sizes { length marks.now ≡ length states.now }
    ensures { result ≡ held_next (count_at states.now (map as_count marks.now)) (as_count mark)
        kids.now held }
{
    match mark {
        Count::Finite(most) => held && are_below(states, marks, kids, most),
        Count::Infinite(child) => held || kids.contains(&child),
    }
}

/// Looks at an entry with these child states, in which the column alone is present, and its target.
fn see_entry(kids: &[u32], target: u32, states: &[u32], marks: &[Count], holds: &mut [bool])
    requires ascending { (i j : ℕ) → i < j → j < length states.now
        → slice_index_or states.now i 0 < slice_index_or states.now j 0 }
    requires sizes { length marks.now ≡ length states.now }
    requires holds { length holds.old ≡ length states.now }
    ensures { (e : Entry) → (column : ℕ) → presence e.symbol ≡ 2 ^ column → e.kids ≡ kids.now
        → (i : ℕ) → i < length states.now → slice_index_or holds.new i false
        ≡ entry_next (count_at states.now (map as_count marks.now)) column
        (slice_index_or states.now i 0) (mark_in (map as_count marks.now) i) e target
        (slice_index_or holds.old i false) }
{
    match states.binary_search(&target) {
        Ok(place) => {
            holds[place] = holds_after(states, marks, marks[place], holds[place], kids);
        }
        Err(_) => {}
    }
}

/// Looks at all entries of a table.
fn see_entries(
    table: &PartTable<'_>,
    column: usize,
    states: &[u32],
    marks: &[Count],
    holds: &mut [bool],
)
    requires column { column < (turned_table table.now).columns }
    requires pure { ArePure (turned_table table.now) column states.now }
    requires sizes { length marks.now ≡ length states.now }
    requires holds { holds.old ≡ map (λ mark. starts (as_count mark)) marks.now }
    ensures seen { IsSeenTo table.now.table column states.now (map as_count marks.now)
        (length table.now.table.entries) holds.new }
    ensures lawful { IsListed table.now.table }
{
    let presences = table.presences();
    let targets = table.targets();
    let mut entries = Entries::new(table.signature(), table.columns());
    'targets: for place in 0..targets.len() {
        let _is_there = entries.advance(presences);
        let row = entries.row();
        if row.presence() == 1 << column {
            see_entry(row.kids(), targets[place], states, marks, holds);
        }
    }
}

/// Whether a mark holds, by what was seen of its state.
fn is_right(states: &[u32], marks: &[Count], mark: Count, held: bool) -> bool
    requires ascending { (i j : ℕ) → i < j → j < length states.now
        → slice_index_or states.now i 0 < slice_index_or states.now j 0 }
    requires sizes { length marks.now ≡ length states.now }
    ensures { result ≡ mark_test (count_at states.now (map as_count marks.now)) (as_count mark)
        held }
{
    match mark {
        Count::Finite(_) => held,
        Count::Infinite(child) => held && mark_of(states, marks, child).is_infinite(),
    }
}

/// The place of the first mark that doesn't hold.
fn first_wrong(states: &[u32], marks: &[Count], holds: &[bool]) -> Option<usize>
    requires ascending { (i j : ℕ) → i < j → j < length states.now
        → slice_index_or states.now i 0 < slice_index_or states.now j 0 }
    requires sizes { length marks.now ≡ length states.now }
    requires holds { length holds.now ≡ length states.now }
    ensures some { IfSome result (IsFirstWrong states.now (map as_count marks.now) holds.now) }
    ensures none { IfNone result (AreAllHeld states.now (map as_count marks.now) holds.now) }
{
    for i in 0..marks.len() {
        if !is_right(states, marks, marks[i], holds[i]) {
            return Some(i);
        }
    }
    None
}

fn reason_of(mark: Count) -> Reason
    ensures { as_reason result ≡ wrong_reason (as_count mark) }
{
    match mark {
        Count::Finite(_) => Reason::Rank,
        Count::Infinite(_) => Reason::Cycle,
    }
}

/// Whether the marks hold by their rules, or their first failure. It takes no memory.
pub fn check_marks(
    table: &PartTable<'_>,
    column: usize,
    marks: &[Count],
    room: &mut MarkRoom,
) -> Result<(), Failure>
    requires column { column < (turned_table table.now).columns }
    requires room { HasMarkRoom (length table.now.table.presences) (length marks.now) room.old }
    ensures pure { ArePure (turned_table table.now) column room.new.states.items }
    ensures outcome { IsCountOutcome (turned_table table.now) column room.new.states.items
        (map as_count marks.now) (outcome_of result) }
    ensures room { HasMarkRoom (length table.now.table.presences) (length marks.now) room.new }
{
    room.states.clear();
    room.holds.clear();
    put_pure(table, column, &mut room.states);
    if room.states.len() != marks.len() {
        return failed(0, Reason::Count);
    }
    put_starts(marks, &mut room.holds);
    let holds = room.holds.as_mut_slice();
    see_entries(table, column, &room.states, marks, holds);
    match first_wrong(&room.states, marks, holds) {
        None => Ok(()),
        Some(place) => failed(place, reason_of(marks[place])),
    }
}
