//! Lists of child states in order, up to the state that has to be among them.
ghost use Rattle.std.specs.Prelude.{◌≡◌, ℕ, ◌^◌, ◌+◌, ◌-◌, ◌<◌, ◌≤◌, List, [], ◌∷◌, ◌++◌, length, slice_index_or, IfSome, ◌||◌, ◌==◌, false};
ghost use Rattle.fort_entry_walk.specs.Walks.{kid_lists, kid_lists_from, kids_after, states_with, GivesFirst, is_wanted, first_tried, one_kid};
ghost use Rattle.fort_entry_walk.specs.KidPairs.{pair_list, two_kids};
ghost use Rattle.fort_tuple_symbols.specs.DigitNumbers.{AreUpTo};

use crate::kid_row::{KidPair, KidRow};

/// The one list of a single kid.
pub fn only_kid(want: u32, presences: &[u16], greatest: u32) -> Option<KidRow>
    requires { greatest < length presences.now }
    ensures states { IfSome result (λ ks. AreUpTo greatest ks) }
    ensures next { GivesFirst (kid_lists presences.now greatest (want ∷ []) false)
        (kids_after presences.now greatest (want ∷ []) false) result }
{
    if u32::from(presences[greatest as usize]) == want {
        Some(KidRow::empty().with_first(greatest))
    } else {
        None
    }
}

/// The first list of kids.
#[cycle(kids)]
pub fn first_kids(
    wants: &[u32],
    presences: &[u16],
    greatest: u32,
    has_greatest: bool,
) -> Option<KidRow>
    requires few { length wants.now ≤ 8 }
    requires within { greatest < length presences.now }
    ensures width { IfSome result (λ ks. length ks ≡ length wants.now) }
    ensures states { IfSome result (λ ks. AreUpTo greatest ks) }
    ensures next { GivesFirst (kid_lists presences.now greatest wants.now has_greatest)
        (kids_after presences.now greatest wants.now has_greatest) result }
{
    match wants.split_first() {
        None if has_greatest => Some(KidRow::empty()),
        None => None,
        Some((want, wants)) => first_kids_from(*want, wants, presences, greatest, has_greatest, 0),
    }
}

/// The first list of kids that begins with the state `from` or a later one.
#[cycle(kids)]
fn first_kids_from(
    want: u32,
    wants: &[u32],
    presences: &[u16],
    greatest: u32,
    has_greatest: bool,
    from: u32,
) -> Option<KidRow>
    requires few { length wants.now < 8 }
    requires within { greatest < length presences.now }
    requires from { from ≤ greatest + 1 }
    ensures width { IfSome result (λ ks. length ks ≡ length wants.now + 1) }
    ensures states { IfSome result (λ ks. AreUpTo greatest ks) }
    ensures next { GivesFirst (kid_lists_from presences.now greatest wants.now has_greatest
        (states_with presences.now want from (greatest + 1 - from)))
        (kids_after presences.now greatest (want ∷ wants.now) has_greatest) result }
{
    if wants.is_empty() {
        return match last_kid(want, presences, greatest, has_greatest, from) {
            Some(last) => Some(KidRow::empty().with_first(last)),
            None => None,
        };
    }
    for q in jump(wants, presences, greatest, has_greatest, from)..=greatest {
        if u32::from(presences[q as usize]) == want {
            match first_kids(
                wants,
                presences,
                greatest,
                has_greatest_with(has_greatest, q, greatest),
            ) {
                Some(kids) => return Some(kids.with_first(q)),
                None => {}
            }
        }
    }
    None
}

/// The first state from `from` on that can be the last kid.
fn last_kid(
    want: u32,
    presences: &[u16],
    greatest: u32,
    has_greatest: bool,
    from: u32,
) -> Option<u32>
    requires within { greatest < length presences.now }
    requires from { from ≤ greatest + 1 }
    ensures state { IfSome result (λ k. k ≤ greatest) }
    ensures next { GivesFirst (kid_lists_from presences.now greatest [] has_greatest
        (states_with presences.now want from (greatest + 1 - from)))
        (kids_after presences.now greatest (want ∷ []) has_greatest) (one_kid result) }
{
    let tried = jump(&[], presences, greatest, has_greatest, from);
    for q in skip_fours(want, presences, greatest, tried)..=greatest {
        if u32::from(presences[q as usize]) == want {
            return Some(q);
        }
    }
    None
}

/// Goes by fours past states that haven't this presence.
fn skip_fours(want: u32, presences: &[u16], greatest: u32, from: u32) -> u32
    requires within { greatest < length presences.now }
    requires from { from ≤ greatest + 1 }
    ensures from { from ≤ result }
    ensures within { result ≤ greatest + 1 }
    ensures same { states_with presences.now want result (greatest + 1 - result)
        ≡ states_with presences.now want from (greatest + 1 - from) }
{
    let end = greatest.saturating_sub(3);
    let mut q = from;
    while q < end && !is_in_four(want, presences, q) {
        q += 4;
    }
    q
}

/// Whether one of four states has this presence.
fn is_in_four(want: u32, presences: &[u16], q: u32) -> bool
    requires { q + 3 < length presences.now }
    ensures { result ≡ false → states_with presences.now want q 4 ≡ [] }
{
    let q = q as usize;
    u32::from(presences[q]) == want
        || u32::from(presences[q + 1]) == want
        || u32::from(presences[q + 2]) == want
        || u32::from(presences[q + 3]) == want
}

/// The list of kids after this one.
pub fn next_kids(
    wants: &[u32],
    presences: &[u16],
    greatest: u32,
    has_greatest: bool,
    kids: &[u32],
) -> Option<KidRow>
    requires few { length wants.now ≤ 8 }
    requires within { greatest < length presences.now }
    requires numbers { length presences.now < 2 ^ 32 }
    requires states { AreUpTo greatest kids.now }
    ensures width { IfSome result (λ ks. length ks ≡ length wants.now) }
    ensures states { IfSome result (λ ks. AreUpTo greatest ks) }
    ensures next { GivesFirst (kids_after presences.now greatest wants.now has_greatest kids.now)
        (kids_after presences.now greatest wants.now has_greatest) result }
{
    match (wants.split_first(), kids.split_first()) {
        (Some((want, wants)), Some((kid, kids))) => {
            if !wants.is_empty() && u32::from(presences[*kid as usize]) == *want {
                match next_kids(
                    wants,
                    presences,
                    greatest,
                    has_greatest_with(has_greatest, *kid, greatest),
                    kids,
                ) {
                    Some(later) => return Some(later.with_first(*kid)),
                    None => {}
                }
            }
            first_kids_from(*want, wants, presences, greatest, has_greatest, *kid + 1)
        }
        _ => None,
    }
}

/// The list of two kids after this one.
pub fn next_pair(
    want: u32,
    last: u32,
    presences: &[u16],
    greatest: u32,
    kid: u32,
    other: u32,
) -> Option<KidPair>
    requires within { greatest < length presences.now }
    requires numbers { length presences.now < 2 ^ 32 }
    requires states { AreUpTo greatest (kid ∷ other ∷ []) }
    ensures states { IfSome result (λ p. AreUpTo greatest (pair_list p)) }
    ensures next { GivesFirst
        (kids_after presences.now greatest (want ∷ last ∷ []) false (kid ∷ other ∷ []))
        (kids_after presences.now greatest (want ∷ last ∷ []) false) (two_kids result) }
{
    if u32::from(presences[kid as usize]) == want {
        match last_kid(last, presences, greatest, kid == greatest, other + 1) {
            Some(other) => return Some(KidPair { kid, other }),
            None => {}
        }
    }
    first_pair_from(want, last, presences, greatest, kid + 1)
}

/// The first list of two kids that begins with the state `from` or a later one.
fn first_pair_from(
    want: u32,
    last: u32,
    presences: &[u16],
    greatest: u32,
    from: u32,
) -> Option<KidPair>
    requires within { greatest < length presences.now }
    requires from { from ≤ greatest + 1 }
    ensures states { IfSome result (λ p. AreUpTo greatest (pair_list p)) }
    ensures next { GivesFirst (kid_lists_from presences.now greatest (last ∷ []) false
        (states_with presences.now want from (greatest + 1 - from)))
        (kids_after presences.now greatest (want ∷ last ∷ []) false) (two_kids result) }
{
    for q in jump(&[last], presences, greatest, false, from)..=greatest {
        if u32::from(presences[q as usize]) == want {
            match last_kid(last, presences, greatest, q == greatest, 0) {
                Some(other) => return Some(KidPair { kid: q, other }),
                None => {}
            }
        }
    }
    None
}

fn has_greatest_with(has_greatest: bool, q: u32, greatest: u32) -> bool
    ensures { result ≡ (has_greatest || (q == greatest)) }
{
    has_greatest || q == greatest
}

/// Whether a presence is among these.
fn is_wanted(wants: &[u32], presence: u32) -> bool
    ensures { result ≡ is_wanted presence wants.now }
{
    match wants.split_first() {
        None => false,
        Some((want, wants)) => *want == presence || is_wanted(wants, presence),
    }
}

/// Where this state has to be `greatest`, since no later one can be, no other one is tried.
fn jump(wants: &[u32], presences: &[u16], greatest: u32, has_greatest: bool, from: u32) -> u32
    requires { greatest < length presences.now }
    ensures { result ≡ first_tried presences.now has_greatest wants.now from greatest }
{
    if has_greatest || is_wanted(wants, u32::from(presences[greatest as usize])) {
        from
    } else {
        from.max(greatest)
    }
}
