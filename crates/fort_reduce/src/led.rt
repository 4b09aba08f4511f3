//! Entries over the leaders of their children's classes.
ghost use Rattle.std.specs.Prelude.{◌≡◌, ℕ, ◌<◌, ◌≤◌, set, length, slice_index_or, true, false};
ghost use Rattle.fort_tables.specs.Entries.{entry};
ghost use Rattle.fort_tables.specs.Refinement.{leader_in};

use crate::classes::Classes;
use fort_tuple_symbols::Row;

/// The leader of a state's class.
pub fn leader_of(classes: &Classes, q: u32) -> u32
    requires state { q < length classes.now.of.items }
    requires class { slice_index_or classes.now.of.items q 0 < length classes.now.leaders.items }
    ensures { result ≡ leader_in classes.now.of.items classes.now.leaders.items q }
{
    classes.leaders[classes.of[q as usize] as usize]
}

/// Whether each child is the leader of its class.
pub fn is_led(kids: &[u32], classes: &Classes) -> bool
    requires states { (j : ℕ) → j < length kids.now
        → slice_index_or kids.now j 0 < length classes.now.of.items }
    requires classes { (q : ℕ) → q < length classes.now.of.items
        → slice_index_or classes.now.of.items q 0 < length classes.now.leaders.items }
    ensures { result ≡ true → (j : ℕ) → j < length kids.now
        → leader_in classes.now.of.items classes.now.leaders.items (slice_index_or kids.now j 0)
        ≡ slice_index_or kids.now j 0 }
{
    for j in 0..kids.len() {
        if leader_of(classes, kids[j]) != kids[j] {
            return false;
        }
    }
    true
}

/// Puts the leaders of the children's classes into a buffer.
pub fn put_leaders(kids: &[u32], classes: &Classes, states: &mut [u32])
    requires states { (j : ℕ) → j < length kids.now
        → slice_index_or kids.now j 0 < length classes.now.of.items }
    requires classes { (q : ℕ) → q < length classes.now.of.items
        → slice_index_or classes.now.of.items q 0 < length classes.now.leaders.items }
    requires room { length kids.now ≤ length states.old }
    ensures { (j : ℕ) → j < length kids.now → slice_index_or states.new j 0
        ≡ leader_in classes.now.of.items classes.now.leaders.items (slice_index_or kids.now j 0) }
{
    for j in 0..kids.len() {
        states[j] = leader_of(classes, kids[j]);
    }
}

/// The entry with another state for child `j`.
pub fn row_with(row: &Row, j: usize, q: u32) -> Row
    requires { j < length row.now.kids }
    ensures { result ≡ entry row.now.symbol (set row.now.kids j q) }
{
    let kids = row.kids();
    let mut states = [0u32; 8];
    states[..kids.len()].copy_from_slice(kids);
    states[j] = q;
    Row::new(row.sym(), &states[..kids.len()])
}
