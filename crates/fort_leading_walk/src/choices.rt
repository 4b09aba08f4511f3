//! The choices of one leader for each place in which the newest state occurs, one after another.
ghost use Rattle.std.specs.Prelude.{◌≡◌, ℕ, ◌+◌, ◌<◌, ◌≤◌, List, [], ◌∷◌, length, drop, get_or, true, false, ◌||◌, ◌==◌, nat_lt};
ghost use Rattle.fort_entry_walk.specs.Walks.{some_if};
ghost use Rattle.fort_leading_walk.specs.Choices.{choices, choices_from, choices_after, AreIn, IsLastIn, IsLastInEach, HasEach, is_among, is_in_some, IsUntil, AreLeaderLists, first_tried, IsFirstPicked, GivesPicked, IsChoice, GivesChoice};

use crate::leader_lists::LeaderLists;
use crate::picks::Picks;

/// A choice of one leader for each place.
#[derive(Drop)]
pub struct Choice {
    pub picks: Picks,
    /// No place from this one on has the newest state.
    pub until: usize,
}

/// Whether the newest state is among these.
fn is_among(leaders: &[u32], newest: u32) -> bool
    requires { IsLastIn newest leaders.now }
    ensures { result ≡ is_among newest leaders.now }
{
    if leaders.is_empty() {
        return false;
    }
    leaders[leaders.len() - 1] == newest
}

/// Whether each place has a leader.
fn has_each<L: LeaderLists>(lists: &L) -> bool
    ensures some { result ≡ true → HasEach (L.lists lists.now) }
    ensures none { result ≡ false → (j : ℕ) × (j < length (L.lists lists.now))
        × (get_or (L.lists lists.now) j [] ≡ []) }
{
    for place in 0..lists.places() {
        if lists.leaders(place).is_empty() {
            return false;
        }
    }
    true
}

/// The number of places up to the last one that has the newest state.
fn places_until<L: LeaderLists>(lists: &L, newest: u32) -> usize
    requires { IsLastInEach newest (L.lists lists.now) }
    ensures { IsUntil newest (L.lists lists.now) result }
{
    let mut until = lists.places();
    while until > 0 {
        if is_among(lists.leaders(until - 1), newest) {
            return until;
        }
        until -= 1;
    }
    0
}

fn has_newest_with(has_newest: bool, leader: u32, newest: u32) -> bool
    ensures { result ≡ (has_newest || (leader == newest)) }
{
    has_newest || leader == newest
}

/// Whether the newest state has been chosen, or may be from this place on.
fn may_come(has_newest: bool, place: usize, until: usize) -> bool
    ensures { result ≡ (has_newest || nat_lt place until) }
{
    has_newest || place < until
}

/// The first index from `from` on that may be chosen.
fn first_tried(may_come: bool, from: usize, count: usize) -> usize
    requires { 0 < count }
    ensures { result ≡ first_tried may_come from count }
{
    if may_come { from } else { count - 1 }
}

/// The first choice from this place on.
fn first_rest<L: LeaderLists>(
    lists: &L,
    newest: u32,
    until: usize,
    place: usize,
    has_newest: bool,
) -> Picks
    requires lists { AreLeaderLists newest (L.lists lists.now) until }
    requires within { place ≤ length (L.lists lists.now) }
    requires may_come { (has_newest || is_in_some newest (drop place (L.lists lists.now)))
        ≡ true }
    ensures { IsFirstPicked newest (drop place (L.lists lists.now)) has_newest
        (choices newest (drop place (L.lists lists.now)) has_newest)
        result.indices result.leaders }
{
    if place == lists.places() {
        return Picks::empty();
    }
    let leaders = lists.leaders(place);
    let may_come_later = may_come(has_newest, place + 1, until);
    let index = first_tried(may_come_later, 0, leaders.len());
    let leader = leaders[index];
    let has_newest_here = has_newest_with(has_newest, leader, newest);
    let rest = first_rest(lists, newest, until, place + 1, has_newest_here);
    rest.with_first(index, leader)
}

/// The first choice from this place on that begins with the leader at `from` or a later one.
fn first_behind<L: LeaderLists>(
    lists: &L,
    newest: u32,
    until: usize,
    place: usize,
    has_newest: bool,
    from: usize,
) -> Option<Picks>
    requires lists { AreLeaderLists newest (L.lists lists.now) until }
    requires within { place < length (L.lists lists.now) }
    ensures { GivesPicked newest (drop place (L.lists lists.now)) has_newest
        (choices_from newest (drop (place + 1) (L.lists lists.now)) has_newest
        (drop from (get_or (L.lists lists.now) place []))) result }
{
    let leaders = lists.leaders(place);
    if from >= leaders.len() {
        return None;
    }
    let may_come_later = may_come(has_newest, place + 1, until);
    let index = first_tried(may_come_later, from, leaders.len());
    let leader = leaders[index];
    let has_newest_here = has_newest_with(has_newest, leader, newest);
    if may_come(has_newest_here, place + 1, until) {
        let rest = first_rest(lists, newest, until, place + 1, has_newest_here);
        Some(rest.with_first(index, leader))
    } else {
        None
    }
}

/// The choice from this place on that comes after the one at these indices.
fn next_from<L: LeaderLists>(
    lists: &L,
    newest: u32,
    until: usize,
    place: usize,
    has_newest: bool,
    indices: &[usize],
) -> Option<Picks>
    requires lists { AreLeaderLists newest (L.lists lists.now) until }
    requires within { AreIn (drop place (L.lists lists.now)) indices.now }
    ensures { GivesPicked newest (drop place (L.lists lists.now)) has_newest
        (choices_after newest (drop place (L.lists lists.now)) has_newest indices.now) result }
{
    match indices.split_first() {
        None => None,
        Some((index, later)) => {
            let leader = lists.leaders(place)[*index];
            let has_newest_here = has_newest_with(has_newest, leader, newest);
            match next_from(lists, newest, until, place + 1, has_newest_here, later) {
                Some(rest) => Some(rest.with_first(*index, leader)),
                None => first_behind(lists, newest, until, place, has_newest, *index + 1),
            }
        }
    }
}

/// The first choice, where there is one.
pub fn first<L: LeaderLists>(lists: &L, newest: u32) -> Option<Choice>
    requires { IsLastInEach newest (L.lists lists.now) }
    ensures { GivesChoice newest (L.lists lists.now) (choices newest (L.lists lists.now) false)
        result }
{
    // its clause says that there are at most 8 places
    let _places = lists.places();
    if !has_each(lists) {
        return None;
    }
    let until = places_until(lists, newest);
    if until == 0 {
        return None;
    }
    let picks = first_rest(lists, newest, until, 0, false);
    Some(Choice { picks, until })
}

impl Choice {
    /// Goes to the next choice, where there is one, and else stays.
    pub fn advance<L: LeaderLists>(&mut self, lists: &L, newest: u32) -> bool
        requires last { IsLastInEach newest (L.lists lists.now) }
        requires choice { IsChoice newest (L.lists lists.now) self.old }
        ensures next { GivesChoice newest (L.lists lists.now)
            (choices_after newest (L.lists lists.now) false self.old.picks.indices)
            (some_if result self.new) }
        ensures stays { result ≡ false → self.new ≡ self.old }
    {
        // its clause says that there are at most 8 places
        let _places = lists.places();
        match next_from(lists, newest, self.until, 0, false, self.picks.indices()) {
            Some(picks) => {
                self.picks = picks;
                true
            }
            None => false,
        }
    }

    /// The leader of each place.
    pub fn leaders(&self) -> &[u32]
        ensures leaders { result.now ≡ self.now.picks.leaders }
        ensures few { length result.now ≤ 8 }
    {
        self.picks.leaders()
    }
}
