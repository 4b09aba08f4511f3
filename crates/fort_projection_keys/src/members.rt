//! The leaders of the states of a label's set.
ghost use Rattle.std.specs.Prelude.{◌≡◌, ◌<◌, ◌≤◌, ◌+◌, ◌*◌, ◌^◌, ◌==◌, ◌&&◌, ◌||◌, ◌++◌, ℕ, false, length, slice_index, IfSome, IfNone, OnOk};
ghost use Rattle.std.specs.Slice.Scan.{HoldsNowhere};
ghost use Rattle.fort_tables.specs.BitRows.{has_bit, words_for};
ghost use Rattle.fort_tables.specs.Projections.{has_state};
ghost use Rattle.fort_projections.specs.Choices.{IsNext};
ghost use Rattle.fort_operand_keys.specs.ProjectionKeys.{some_led};
ghost use Rattle.fort_projection_keys.specs.ProjectionViews.{is_member, member_row};
ghost use Rattle.fort_projection_keys.specs.ViewedPlaces.{IsViewed};

use fort_labels::set_bit;
use fort_projections::next_in_set;
use fort_table_classes::TableClasses;
use std::alloc::AllocError;

/// The states at a place of the body: by the number of its view, and their presence.
#[derive(Clone, Copy)]
pub(crate) struct StatesAt {
    pub(crate) view: u32,
    pub(crate) presence: u64,
}

/// The first of so many states, from `from` on, whose bit is set; bit `first` of the label's set is that of state 0.
fn next_member(label: &[u64], first: usize, from: u32, states: u32) -> Option<u32>
    requires few { length label.now < 2 ^ 32 }
    requires room { 128 + (first + states) ≤ 64 * length label.now }
    requires within { from ≤ states }
    ensures small { IfSome result (λ q. q < states) }
    ensures some { IfSome result (IsNext (λ q. has_state label.now (first + q)) from) }
    ensures none { IfNone result (HoldsNowhere (λ q. has_state label.now (first + q)) from
        states) }
{
    let bit = first + from as usize;
    let skip = bit / 64;
    match next_in_set(&label[skip..], (bit % 64) as u32) {
        Some(found) if 64 * skip + found < first + states as usize => {
            Some((64 * skip + found - first) as u32)
        }
        _ => None,
    }
}

/// Sets the bit of a state's leader, where the state has the presence.
fn mark_leader<T: TableClasses>(body: &T, at: StatesAt, state: u32, row: &mut [u64])
    requires viewed { IsViewed (T.table body.now) (T.view_number body.now) at.view at.presence }
    requires state { state < length (T.table body.now).presences }
    requires room { length row.old ≡ words_for (length (T.table body.now).presences) }
    ensures { (i : ℕ) → has_bit row.new i
        ≡ (((slice_index (T.table body.now).presences state == at.presence)
        && (T.leader_in body.now at.view state == i)) || has_bit row.old i) }
{
    if u64::from(body.presence(state)) != at.presence {
        return;
    }
    let leader = body.leader(at.view, state);
    set_bit(row, leader as usize);
}

/// Sets the bits of the leaders of the label's states that have the presence.
fn mark_leaders<T: TableClasses>(
    body: &T,
    at: StatesAt,
    label: &[u64],
    first: usize,
    row: &mut [u64],
)
    requires viewed { IsViewed (T.table body.now) (T.view_number body.now) at.view at.presence }
    requires few { length label.now < 2 ^ 32 }
    requires bits { 128 + (first + length (T.table body.now).presences) ≤ 64 * length label.now }
    requires room { length row.old ≡ words_for (length (T.table body.now).presences) }
    requires clear { (i : ℕ) → has_bit row.old i ≡ false }
    ensures width { length row.new ≡ length row.old }
    ensures bits { (i : ℕ) → has_bit row.new i ≡ some_led (length (T.table body.now).presences)
        (T.leader_in body.now at.view)
        (is_member (T.table body.now) at.presence first label.now) i }
{
    let states = body.states();
    let mut from = 0;
    'members: while let Some(state) = next_member(label, first, from, states) {
        mark_leader(body, at, state, row);
        from = state + 1;
    }
}

/// Writes the row of these leaders.
fn write_leaders<T: TableClasses>(
    body: &T,
    at: StatesAt,
    label: &[u64],
    first: usize,
    row: &mut [u64],
)
    requires viewed { IsViewed (T.table body.now) (T.view_number body.now) at.view at.presence }
    requires few { length label.now < 2 ^ 32 }
    requires bits { 128 + (first + length (T.table body.now).presences) ≤ 64 * length label.now }
    requires room { length row.old ≡ words_for (length (T.table body.now).presences) }
    requires clear { (i : ℕ) → has_bit row.old i ≡ false }
    ensures { row.new ≡ member_row (T.table body.now) (T.leader_in body.now) at.view at.presence
        first label.now }
{
    mark_leaders(body, at, label, first, row);
}

/// Appends the row of these leaders.
pub(crate) fn push_leaders<T: TableClasses>(
    body: &T,
    at: StatesAt,
    label: &[u64],
    first: usize,
    words: &mut Vec<u64>,
) -> Result<(), AllocError>
    requires viewed { IsViewed (T.table body.now) (T.view_number body.now) at.view at.presence }
    requires few { length label.now < 2 ^ 32 }
    requires bits { 128 + (first + length (T.table body.now).presences) ≤ 64 * length label.now }
    ensures { OnOk result (words.new.items ≡ words.old.items ++ member_row (T.table body.now)
        (T.leader_in body.now) at.view at.presence first label.now) }
{
    let start = words.len();
    words.resize(start + (body.states() as usize).div_ceil(64), 0)?;
    let all = words.as_mut_slice();
    write_leaders(body, at, label, first, &mut all[start..]);
    Ok(())
}
