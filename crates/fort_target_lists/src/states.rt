//! The states of a table by their presences, in room that was taken before.
ghost use Rattle.std.specs.Prelude.{◌≡◌, ℕ, ◌<◌, ◌≤◌, ◌^◌, [], length, slice_index, slice_index_or, vec_capacity, IfOk};
ghost use Rattle.fort_target_lists.specs.Places.{AreRanks, AreAlike, AreCounts, AreSpots};
ghost use Rattle.fort_target_lists.specs.Chains.{AreChains};
ghost use Rattle.fort_target_lists.specs.LayRooms.{HasLayRoomBelow, HasLayRoom, HasSpotRoom};

use crate::chains::Chains;
use crate::entry_count::count_states;
use crate::flat::{Listing, Spots};
use std::alloc::{AllocError, Global};

/// One more than the greatest presence, that of all sixteen columns.
const MOST_PRESENCES: usize = 65536;

/// What lists are laid by, one after the other.
#[derive(Drop)]
pub struct LayRoom {
    /// How many states have each presence.
    pub counts: Vec<u32>,
    /// The states of each presence.
    pub chains: Chains,
    /// For each stage where its next target stands.
    pub cursors: Vec<usize>,
    /// A list that stays as it is, for walks that only count.
    pub(crate) blank: Listing,
}

/// Makes these so many equal elements.
pub(crate) fn fill_given<T: Copy>(elements: &mut Vec<T>, element: T, count: usize)
    requires { count ≤ vec_capacity elements.old }
    ensures size { length elements.new.items ≡ count }
    ensures equal { (w : ℕ) → w < count → (x : T)
        → slice_index_or elements.new.items w x ≡ element }
    ensures room { vec_capacity elements.old ≤ vec_capacity elements.new }
{
    elements.clear();
    match elements.resize(count, element) {
        Ok(()) => {}
        Err(_) => unreachable!(),
    }
}

/// Each state's rank among the states of its presence; the counts are how many states have each presence.
fn rank_states(presences: &[u16], counts: &mut [u32], ranks: &mut Vec<u32>)
    requires few { length presences.now < 2 ^ 32 }
    requires empty { ranks.old.items ≡ [] }
    requires room { length presences.now ≤ vec_capacity ranks.old }
    requires none { (w : ℕ) → w < length counts.old → slice_index counts.old w ≡ 0 }
    requires within { (q : ℕ) → q < length presences.now
        → slice_index presences.now q < length counts.old }
    ensures ranks { AreRanks presences.now ranks.new.items }
    ensures counts { AreCounts presences.now counts.new }
    ensures room { vec_capacity ranks.new ≡ vec_capacity ranks.old }
{
    for q in 0..presences.len() {
        let presence = presences[q] as usize;
        ranks.push_reserved(counts[presence]);
        counts[presence] += 1;
    }
}

/// For each state how many have its presence.
fn count_alike(presences: &[u16], counts: &[u32], alike: &mut Vec<u32>)
    requires empty { alike.old.items ≡ [] }
    requires room { length presences.now ≤ vec_capacity alike.old }
    requires within { (q : ℕ) → q < length presences.now
        → slice_index presences.now q < length counts.now }
    requires counts { AreCounts presences.now counts.now }
    ensures alike { AreAlike presences.now alike.new.items }
    ensures room { vec_capacity alike.new ≡ vec_capacity alike.old }
{
    for q in 0..presences.len() {
        alike.push_reserved(counts[presences[q] as usize]);
    }
}

/// Puts each state before the states behind it.
fn chain_states(presences: &[u16], firsts: &mut [u32], nexts: &mut [u32])
    requires few { length presences.now < 2 ^ 32 }
    requires states { length nexts.old ≡ length presences.now }
    requires none { (w : ℕ) → w < length firsts.old
        → slice_index firsts.old w ≡ length presences.now }
    requires within { (q : ℕ) → q < length presences.now
        → slice_index presences.now q < length firsts.old }
    ensures { (columns : ℕ) → length firsts.old ≡ 2 ^ columns
        → AreChains columns presences.now firsts.new nexts.new }
{
    let count = presences.len();
    for k in 0..count {
        let q = count - 1 - k;
        let presence = presences[q] as usize;
        nexts[q] = firsts[presence];
        firsts[presence] = q as u32;
    }
}

impl LayRoom {
    /// The room for tables of at most so many states.
    pub fn new(alloc: Global, states: usize) -> Result<LayRoom, AllocError>
        ensures { IfOk result (HasLayRoom states) }
    {
        LayRoom::below(alloc, MOST_PRESENCES, states)
    }

    /// The room for tables of at most so many states, whose presences are below a bound.
    pub(crate) fn below(alloc: Global, bound: usize, states: usize) -> Result<LayRoom, AllocError>
        ensures { IfOk result (HasLayRoomBelow bound states) }
    {
        Ok(LayRoom {
            counts: Vec::with_capacity(alloc, bound)?,
            chains: Chains {
                firsts: Vec::with_capacity(alloc, bound)?,
                nexts: Vec::with_capacity(alloc, states)?,
            },
            cursors: Vec::with_capacity(alloc, states.saturating_add(1))?,
            blank: Listing {
                starts: Vec::new(alloc),
                targets: Vec::new(alloc),
            },
        })
    }

    /// Makes the chains of states of so many presences.
    fn chain_all(&mut self, count: usize, presences: &[u16])
        requires few { length presences.now < 2 ^ 32 }
        requires within { (q : ℕ) → q < length presences.now
            → slice_index presences.now q < count }
        requires room { HasLayRoomBelow count (length presences.now) self.old }
        ensures chains { (columns : ℕ) → count ≡ 2 ^ columns → AreChains columns presences.now
            self.new.chains.firsts.items self.new.chains.nexts.items }
        ensures counts { self.new.counts ≡ self.old.counts }
        ensures room { (b n : ℕ) → HasLayRoomBelow b n self.old → HasLayRoomBelow b n self.new }
    {
        let states = presences.len();
        fill_given(&mut self.chains.firsts, states as u32, count);
        fill_given(&mut self.chains.nexts, states as u32, states);
        chain_states(
            presences,
            self.chains.firsts.as_mut_slice(),
            self.chains.nexts.as_mut_slice(),
        );
    }

    /// Takes up a table's states: how many have each presence, and their chains.
    pub fn take_states(&mut self, columns: usize, presences: &[u16])
        requires narrow { columns ≤ 16 }
        requires few { length presences.now < 2 ^ 32 }
        requires within { (q : ℕ) → q < length presences.now
            → slice_index presences.now q < 2 ^ columns }
        requires room { HasLayRoom (length presences.now) self.old }
        ensures size { length self.new.counts.items ≡ 2 ^ columns }
        ensures counts { AreCounts presences.now self.new.counts.items }
        ensures chains { AreChains columns presences.now self.new.chains.firsts.items
            self.new.chains.nexts.items }
        ensures room { (n : ℕ) → HasLayRoom n self.old → HasLayRoom n self.new }
    {
        let count = 2usize.pow(columns as u32);
        fill_given(&mut self.counts, 0, count);
        count_states(presences, self.counts.as_mut_slice());
        self.chain_all(count, presences);
    }

    /// Takes up a table's states: their ranks and their chains.
    pub(crate) fn take_up(&mut self, columns: usize, presences: &[u16], spots: &mut Spots)
        requires narrow { columns ≤ 16 }
        requires few { length presences.now < 2 ^ 32 }
        requires within { (q : ℕ) → q < length presences.now
            → slice_index presences.now q < 2 ^ columns }
        requires room { HasLayRoomBelow (2 ^ columns) (length presences.now) self.old }
        requires spot_room { HasSpotRoom (length presences.now) spots.old }
        ensures size { length self.new.counts.items ≡ 2 ^ columns }
        ensures counts { AreCounts presences.now self.new.counts.items }
        ensures chains { AreChains columns presences.now self.new.chains.firsts.items
            self.new.chains.nexts.items }
        ensures spots { AreSpots presences.now spots.new.ranks.items spots.new.alike.items }
        ensures room { (b n : ℕ) → HasLayRoomBelow b n self.old → HasLayRoomBelow b n self.new }
        ensures spot_room { (n : ℕ) → HasSpotRoom n spots.old → HasSpotRoom n spots.new }
    {
        let count = 2usize.pow(columns as u32);
        fill_given(&mut self.counts, 0, count);
        spots.ranks.clear();
        spots.alike.clear();
        rank_states(presences, self.counts.as_mut_slice(), &mut spots.ranks);
        count_alike(presences, self.counts.as_slice(), &mut spots.alike);
        self.chain_all(count, presences);
    }
}
