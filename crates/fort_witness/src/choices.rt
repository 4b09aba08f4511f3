//! Lists of nodes of given states, one after another.
ghost use Rattle.std.specs.Prelude.{◌≡◌, ◌-◌, ℕ, List, ◌<◌, ◌≤◌, ◌⊎◌, ◌^◌, ◌&&◌, nat_lt, length, slice_index_or, true, false};
ghost use Rattle.fort_witness.specs.Choices.{AreListed, lists_of, IsChoice, IsFirstChoice, IsNextChoice, Knows, HasNewOf};

use crate::node_lists::NodeLists;

/// The nodes below the end; those from low on are new.
#[derive(Clone, Copy)]
pub struct NodeSpan {
    pub low: u32,
    pub end: u32,
}

/// Whether one of these states has a new node.
fn has_new(lists: &NodeLists, span: NodeSpan, states: &[u32]) -> bool
    requires { Knows (lists_of lists.now) states.now }
    ensures some { result ≡ true → (qs : List ℕ) → AreListed (length (lists_of lists.now)) qs
        (lists_of lists.now) → HasNewOf qs span.low span.end states.now }
    ensures none { result ≡ false → (qs : List ℕ) → AreListed (length (lists_of lists.now)) qs
        (lists_of lists.now) → HasNewOf qs span.low span.end states.now → ⊥ }
{
    for j in 0..states.len() {
        if lists.first_from(states[j], span.low, span.end).is_some() {
            return true;
        }
    }
    false
}

/// Whether a new node is still needed behind this one.
fn still_needs(need: bool, node: u32, low: u32) -> bool
    ensures { result ≡ (need && nat_lt node low) }
{
    need && node < low
}

/// From which node on the first of a list may stand, where the others are of these states.
fn start_of(lists: &NodeLists, span: NodeSpan, rest: &[u32], need: bool, from: u32) -> u32
    requires { Knows (lists_of lists.now) rest.now }
    ensures from { from ≤ result }
    ensures free { (qs : List ℕ) → AreListed (length (lists_of lists.now)) qs (lists_of lists.now)
        → need ≡ true → result < span.low → HasNewOf qs span.low span.end rest.now }
    ensures skips { (qs : List ℕ) → AreListed (length (lists_of lists.now)) qs (lists_of lists.now)
        → (k : ℕ) → from ≤ k → k < result → (need ≡ true) × (k < span.low) × (HasNewOf qs
        span.low span.end rest.now → ⊥) }
{
    if need && !has_new(lists, span, rest) {
        from.max(span.low)
    } else {
        from
    }
}

/// The first nodes of these states in the order of lists, with a new one where that is needed; the
/// first of them is this number or a greater one. Whether there are any.
pub fn first_kids(
    lists: &NodeLists,
    span: NodeSpan,
    states: &[u32],
    need: bool,
    from: u32,
    kids: &mut [u32],
) -> bool
    requires known { Knows (lists_of lists.now) states.now }
    requires count { length kids.old ≡ length states.now }
    ensures count { length kids.new ≡ length kids.old }
    ensures first { (qs : List ℕ) → AreListed (length (lists_of lists.now)) qs (lists_of lists.now)
        → IsFirstChoice qs span.low span.end states.now need from kids.new result }
{
    match states.split_first() {
        None => !need,
        Some((state, rest)) => {
            let start = start_of(lists, span, rest, need, from);
            match lists.first_from(*state, start, span.end) {
                None => false,
                Some(node) => match kids.split_first_mut() {
                    None => unreachable!(),
                    Some((first, others)) => {
                        *first = node;
                        let needs = still_needs(need, node, span.low);
                        first_kids(lists, span, rest, needs, 0, others)
                    }
                },
            }
        }
    }
}

/// The next nodes of these states after the ones given; whether there are any.
pub fn next_kids(
    lists: &NodeLists,
    span: NodeSpan,
    states: &[u32],
    need: bool,
    kids: &mut [u32],
) -> bool
    requires known { Knows (lists_of lists.now) states.now }
    requires count { length kids.old ≡ length states.now }
    requires small { (j : ℕ) → j < length kids.old → slice_index_or kids.old j 0 < 2 ^ 32 - 1 }
    ensures count { length kids.new ≡ length kids.old }
    ensures next { (qs : List ℕ) → AreListed (length (lists_of lists.now)) qs (lists_of lists.now)
        → IsChoice qs span.low span.end states.now need kids.old
        → IsNextChoice qs span.low span.end states.now need kids.old kids.new result }
{
    match states.split_first() {
        None => false,
        Some((_state, rest)) => match kids.split_first_mut() {
            None => unreachable!(),
            Some((first, others)) => {
                let node = *first;
                let needs = still_needs(need, node, span.low);
                if next_kids(lists, span, rest, needs, others) {
                    true
                } else {
                    first_kids(lists, span, states, need, node + 1, kids)
                }
            }
        },
    }
}
