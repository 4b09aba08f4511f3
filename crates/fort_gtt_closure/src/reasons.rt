//! The first reason by which a pair follows from the pairs listed so far.
ghost use Rattle.std.specs.Prelude.{◌≡◌, ◌<◌, Some, length};
ghost use Rattle.fort_gtt_closure.specs.Scans.{all_listed, by_any, by_kids, by_left_place, by_pair, by_places, by_silent_left, by_silent_right, first_reason, is_any, meets};
ghost use Rattle.fort_gtt_closure.specs.Links.{AreWithin, Leads};
ghost use Rattle.fort_gtt_closure.specs.Reasons.{IsNumbered};

use crate::entry::Why;
use crate::grid::Grid;
use crate::links::Links;
use fort_transducers::Agtt;
use fort_tree_automata::{Move, Nta};

/// For each state of the two automata whether it takes some term.
#[derive(Drop)]
pub(crate) struct Inhabited {
    pub(crate) left: Vec<bool>,
    pub(crate) right: Vec<bool>,
}

fn is_any(automaton: &Nta, state: u32) -> bool
    ensures { result ≡ is_any automaton.now.any state }
{
    match automaton.any {
        Some(any) => any == state,
        None => false,
    }
}

fn by_any(agtt: &Agtt, inhabited: &Inhabited, p: u32, q: u32) -> bool
    requires left { q < length inhabited.now.left.items }
    requires right { p < length inhabited.now.right.items }
    ensures { result ≡ by_any agtt.now inhabited.now p q }
{
    (is_any(&agtt.right, p) && inhabited.left[q as usize])
        || (is_any(&agtt.left, q) && inhabited.right[p as usize])
}

fn all_listed(grid: &Grid, ps: &[u32], qs: &[u32]) -> bool
    ensures { result ≡ all_listed grid.now.entries.items ps.now qs.now }
{
    if ps.len() != qs.len() {
        return false;
    }
    for i in 0..ps.len() {
        if !grid.has(ps[i], qs[i]) {
            return false;
        }
    }
    true
}

fn by_left_place(grid: &Grid, right: &Move, lefts: &[Move], places: &[(u32, u32)]) -> Option<u32>
    requires { AreWithin (length lefts.now) places.now }
    ensures { result ≡ by_left_place grid.now.entries.items lefts.now places.now right.now }
{
    for place in places {
        if meets(grid, right, &lefts[place.1 as usize]) {
            return Some(place.1);
        }
    }
    None
}

fn meets(grid: &Grid, right: &Move, left: &Move) -> bool
    ensures { result ≡ meets grid.now.entries.items right.now (Some left.now) }
{
    left.sym == right.sym && all_listed(grid, &right.kids, &left.kids)
}

/// The first moves that meet, among those at the places of each side.
fn by_kids_at(
    grid: &Grid,
    rights: &[Move],
    right_places: &[(u32, u32)],
    lefts: &[Move],
    left_places: &[(u32, u32)],
) -> Option<(u32, u32)>
    requires right { AreWithin (length rights.now) right_places.now }
    requires left { AreWithin (length lefts.now) left_places.now }
    ensures { result ≡ by_places (by_left_place grid.now.entries.items lefts.now left_places.now)
        rights.now right_places.now }
{
    for place in right_places {
        let right = &rights[place.1 as usize];
        if let Some(j) = by_left_place(grid, right, lefts, left_places) {
            return Some((place.1, j));
        }
    }
    None
}

/// The first moves to the two states that meet.
fn by_moves(agtt: &Agtt, links: &Links, grid: &Grid, p: u32, q: u32) -> Option<(u32, u32)>
    requires leads { Leads agtt.now links.now }
    requires right { p < agtt.now.right.states }
    requires left { q < agtt.now.left.states }
    ensures { result ≡ by_kids grid.now.entries.items p q
        agtt.now.left.moves.items 0 agtt.now.right.moves.items }
{
    let rights = links.right_targets.get(p);
    let lefts = links.left_targets.get(q);
    by_kids_at(grid, &agtt.right.moves, rights, &agtt.left.moves, lefts)
}

fn by_silent_right(grid: &Grid, silent: &[(u32, u32)], p: u32, q: u32) -> Option<usize>
    ensures { result ≡ by_silent_right grid.now.entries.items p q silent.now }
{
    silent
        .iter()
        .position(|step| step.1 == p && grid.has(step.0, q))
}

fn by_silent_left(grid: &Grid, silent: &[(u32, u32)], p: u32, q: u32) -> Option<usize>
    ensures { result ≡ by_silent_left grid.now.entries.items p q silent.now }
{
    silent
        .iter()
        .position(|step| step.1 == q && grid.has(p, step.0))
}

fn by_pair(grid: &Grid, pairs: &[(u32, u32)], p: u32, q: u32) -> Option<usize>
    ensures { result ≡ by_pair grid.now.entries.items p q pairs.now }
{
    pairs
        .iter()
        .position(|pair| grid.has(p, pair.0) && grid.has(pair.1, q))
}

/// The first reason for a pair.
pub(crate) fn first_reason(
    agtt: &Agtt,
    inhabited: &Inhabited,
    links: &Links,
    grid: &Grid,
    p: u32,
    q: u32,
) -> Option<Why>
    requires numbered { IsNumbered agtt.now }
    requires leads { Leads agtt.now links.now }
    requires right_state { p < agtt.now.right.states }
    requires left_state { q < agtt.now.left.states }
    requires left { q < length inhabited.now.left.items }
    requires right { p < length inhabited.now.right.items }
    ensures { result ≡ first_reason agtt.now inhabited.now grid.now.entries.items p q }
{
    if by_any(agtt, inhabited, p, q) {
        return Some(Why::Any);
    }
    if let Some((k, j)) = by_moves(agtt, links, grid, p, q) {
        return Some(Why::Kids(k, j));
    }
    if let Some(k) = by_silent_right(grid, &agtt.right.silent, p, q) {
        return Some(Why::SilentRight(k as u64));
    }
    if let Some(k) = by_silent_left(grid, &agtt.left.silent, p, q) {
        return Some(Why::SilentLeft(k as u64));
    }
    if let Some(k) = by_pair(grid, &agtt.pairs, p, q) {
        return Some(Why::Pair(k as u32));
    }
    None
}
