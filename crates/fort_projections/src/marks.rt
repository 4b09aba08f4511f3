//! The states that one child's states give where each other child is in one state, by a list of the targets.
ghost use Rattle.std.specs.Prelude.{◌≡◌, ℕ, ◌+◌, ◌-◌, ◌*◌, ◌<◌, ◌≤◌, ◌^◌, ◌&&◌, ◌||◌, ◌==◌, Bool, true, length, slice_index};
ghost use Rattle.fort_tables.specs.Projections.{has_state, some_below};
ghost use Rattle.fort_projections.specs.Strides.{IsReadable, read_at};

use fort_labels::set_bit;
use fort_target_lists::FlatTargets;

/// Where the targets stand that one child's states give, each other child being in one state.
#[derive(Drop)]
pub(crate) struct Stride<'a> {
    pub(crate) flat: &'a FlatTargets,
    /// Where the targets of the tuple symbol start.
    pub(crate) start: usize,
    /// The place of the states before this child.
    pub(crate) place: usize,
    /// How many targets one state of this child has, and which of them is the one of the states behind it.
    pub(crate) times: usize,
    pub(crate) plus: usize,
}

impl<'a> Stride<'a> {
    /// The target where the child has this state.
    fn target(&self, state: usize) -> u32
        requires { IsReadable self.now state }
        ensures { result ≡ read_at self.now state }
    {
        let flat = self.flat;
        // its clause bounds the length
        let _count = flat.listing.targets.len();
        let place = self.place * flat.spots.alike[state] as usize
            + flat.spots.ranks[state] as usize;
        flat.listing.targets[self.start + (place * self.times + self.plus)]
    }
}

/// Marks the targets where the child has any state of the set.
pub(crate) fn mark_set(stride: &Stride<'_>, set: &[u64], out: &mut [u64])
    requires readable { (k : ℕ) → has_state set.now k ≡ true → IsReadable stride.now k }
    requires room { (k : ℕ) → has_state set.now k ≡ true
        → read_at stride.now k + 128 < 64 * length out.old }
    requires few { length set.now < 2 ^ 32 }
    requires label { 2 ≤ length set.now }
    ensures first { slice_index out.new 0 ≡ slice_index out.old 0 }
    ensures second { slice_index out.new 1 ≡ slice_index out.old 1 }
    ensures marked { (q : ℕ) → has_state out.new q ≡ (some_below (64 * (length set.now - 2))
        (λ k. has_state set.now k && (read_at stride.now k == q)) || has_state out.old q) }
{
    for i in 2..set.len() {
        mark_word(stride, set, i, out);
    }
}

/// The same for the states of word `i` of the set alone, where those of the words before it are marked.
fn mark_word(stride: &Stride<'_>, set: &[u64], i: usize, out: &mut [u64])
    requires word { i < length set.now }
    requires behind { 2 ≤ i }
    requires readable { (k : ℕ) → has_state set.now k ≡ true → IsReadable stride.now k }
    requires room { (k : ℕ) → has_state set.now k ≡ true
        → read_at stride.now k + 128 < 64 * length out.old }
    requires few { length set.now < 2 ^ 32 }
    ensures first { slice_index out.new 0 ≡ slice_index out.old 0 }
    ensures second { slice_index out.new 1 ≡ slice_index out.old 1 }
    ensures marked { (q : ℕ) (before : Bool) → has_state out.old q ≡ (some_below (64 * (i - 2))
        (λ k. has_state set.now k && (read_at stride.now k == q)) || before)
        → has_state out.new q ≡ (some_below (64 * (i - 2) + 64)
        (λ k. has_state set.now k && (read_at stride.now k == q)) || before) }
{
    let mut rest = set[i];
    let mut state = 64 * (i - 2);
    'bits: while rest != 0 {
        let skip = rest.trailing_zeros();
        state += skip as usize;
        set_bit(out, 128 + stride.target(state) as usize);
        rest = (rest >> skip) >> 1;
        state += 1;
    }
}
