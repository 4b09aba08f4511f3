//! What the views of a place ask of a child's label.
ghost use Rattle.std.specs.Prelude.{◌≡◌, ℕ, ◌<◌, ◌≤◌, ◌+◌, ◌*◌, ◌^◌, ◌++◌, [], length, slice_index, OnOk, if◌then◌else◌};
ghost use Rattle.std.specs.List.{flat_map};
ghost use Rattle.fort_tables.specs.Tuples.{TupleSymbol};
ghost use Rattle.fort_projection_keys.specs.ProjectionViews.{leader_word as leader_word_lem, member_rows, part_key, key_in_view, projection_view};
ghost use Rattle.fort_projection_keys.specs.ViewedPlaces.{IsViewed, IsPart};

use crate::members::{StatesAt, push_leaders};
use fort_table_classes::TableClasses;
use std::alloc::AllocError;

/// The leader of a state that has the presence; any other number is its own.
fn leader_word<T: TableClasses>(body: &T, at: StatesAt, state: u64) -> u64
    requires { IsViewed (T.table body.now) (T.view_number body.now) at.view at.presence }
    ensures { result ≡ leader_word_lem (T.table body.now) (T.leader_in body.now) at.view
        at.presence state }
{
    if state >= u64::from(body.states()) {
        return state;
    }
    let number = state as u32;
    if u64::from(body.presence(number)) != at.presence {
        return state;
    }
    u64::from(body.leader(at.view, number))
}

/// Appends the rows of the leaders of the label's set, and where it has two, of the second one.
fn push_rows<T: TableClasses>(
    body: &T,
    at: StatesAt,
    both: bool,
    label: &[u64],
    words: &mut Vec<u64>,
) -> Result<(), AllocError>
    requires viewed { IsViewed (T.table body.now) (T.view_number body.now) at.view at.presence }
    requires few { length label.now < 2 ^ 32 }
    requires bits { 128 + (if both then 2 * length (T.table body.now).presences
        else length (T.table body.now).presences) ≤ 64 * length label.now }
    ensures { OnOk result (words.new.items ≡ words.old.items ++ member_rows (T.table body.now)
        (T.leader_in body.now) both at.view at.presence label.now) }
{
    if !both {
        return push_leaders(body, at, label, 0, words);
    }
    let states = body.states() as usize;
    push_leaders(body, at, label, 0, words)?;
    push_leaders(body, at, label, states, words)
}

/// Appends what the view of this word asks; `presence` is that of the states with the column absent.
fn push_part<T: TableClasses>(
    body: &T,
    column: usize,
    presence: u64,
    word: u64,
    both: bool,
    label: &[u64],
    words: &mut Vec<u64>,
) -> Result<(), AllocError>
    requires column { column < (T.table body.now).columns }
    requires part { IsPart (T.table body.now) (T.view_number body.now) column presence word }
    requires few { length label.now < 2 ^ 32 }
    requires bits { 128 + (if both then 2 * length (T.table body.now).presences
        else length (T.table body.now).presences) ≤ 64 * length label.now }
    ensures { OnOk result (words.new.items ≡ words.old.items ++ part_key (T.table body.now)
        (T.leader_in body.now) column both presence label.now word) }
{
    // its clause says that the table is lawful
    let _columns = body.columns();
    let view = (word / 2) as u32;
    if word % 2 == 0 {
        let at = StatesAt { view, presence };
        let state = label.get(1).copied().unwrap_or(0);
        words.push(leader_word(body, at, state))?;
        return Ok(());
    }
    let at = StatesAt {
        view,
        presence: presence + (1 << column),
    };
    push_rows(body, at, both, label, words)
}

/// Writes what the views of these words ask.
fn write_parts<T: TableClasses>(
    body: &T,
    column: usize,
    presence: u64,
    parts: &[u64],
    both: bool,
    label: &[u64],
    words: &mut Vec<u64>,
) -> Result<(), AllocError>
    requires column { column < (T.table body.now).columns }
    requires parts { (k : ℕ) → k < length parts.now → IsPart (T.table body.now)
        (T.view_number body.now) column presence (slice_index parts.now k) }
    requires few { length label.now < 2 ^ 32 }
    requires bits { 128 + (if both then 2 * length (T.table body.now).presences
        else length (T.table body.now).presences) ≤ 64 * length label.now }
    requires empty { words.old.items ≡ [] }
    ensures { OnOk result (words.new.items ≡ flat_map (part_key (T.table body.now)
        (T.leader_in body.now) column both presence label.now) parts.now) }
{
    for k in 0..parts.len() {
        push_part(body, column, presence, parts[k], both, label, words)?;
    }
    Ok(())
}

/// Writes the key of a label in the view of some place.
pub(crate) fn write_key<T: TableClasses>(
    body: &T,
    column: usize,
    seen: &[u64],
    both: bool,
    label: &[u64],
    words: &mut Vec<u64>,
) -> Result<(), AllocError>
    requires column { column < (T.table body.now).columns }
    requires seen { (f : TupleSymbol) × (j : ℕ) × (seen.now ≡ projection_view
        (T.view_number body.now) (T.table body.now) column f j) }
    requires few { length label.now < 2 ^ 32 }
    requires bits { 128 + (if both then 2 * length (T.table body.now).presences
        else length (T.table body.now).presences) ≤ 64 * length label.now }
    requires empty { words.old.items ≡ [] }
    ensures { OnOk result (words.new.items ≡ key_in_view (T.table body.now)
        (T.leader_in body.now) column both seen.now label.now) }
{
    if seen.is_empty() {
        return Ok(());
    }
    let last = seen.len() - 1;
    write_parts(body, column, seen[last], &seen[..last], both, label, words)
}
