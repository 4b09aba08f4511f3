//! What stays of a table's states: what is said of first states.
ghost use Rattle.std.specs.Prelude.{◌≡◌, ℕ, ◌<◌, ◌≤◌, length, get_or, slice_index_or, vec_capacity};
ghost use Rattle.fort_check_merges.specs.Leaders.{ArePlaces};

/// Keeps the elements at these places alone.
pub fn keep<T: Copy + Drop>(leaders: &[u32], elements: &mut Vec<T>)
    requires order { ArePlaces leaders.now (length elements.old.items) }
    ensures count { length elements.new.items ≡ length leaders.now }
    ensures elements { (c : ℕ) (d : T) → c < length leaders.now → get_or elements.new.items c d
        ≡ get_or elements.old.items (slice_index_or leaders.now c 0) d }
    ensures capacity { vec_capacity elements.new ≡ vec_capacity elements.old }
{
    for c in 0..leaders.len() {
        elements[c] = elements[leaders[c] as usize];
    }
    elements.truncate(leaders.len());
}
