//! Ranks of states: one more than the greatest height of their terms, as far as there is one.
ghost use Rattle.std.specs.Prelude.{◌≡◌, ℕ, ◌<◌, ◌≤◌, ◌^◌, [], length, slice_index_or, Contains, IfOk, OnOk, OnErr, IfSome, IfNone};
ghost use Rattle.fort_tables.specs.Tables as tables;
ghost use Rattle.fort_tables.specs.Ranks.{AreSettled};
ghost use Rattle.fort_infinity.specs.Children.{AreChildren, IsPureColumn};
ghost use Rattle.fort_infinity.specs.RankTests.{IsEarlier, IsOpen};

use crate::lists::StateLists;
use std::alloc::{AllocError, Global};

/// Ranks in the making. A state without one waits for a child without one.
#[derive(Drop)]
struct Ranking {
    /// The ranks; 0 for none yet.
    ranks: Vec<u32>,
    /// How many of its children a state has passed: they have ranks.
    passed: Vec<usize>,
    /// The states that wait for a state.
    waiting: StateLists,
}

/// The place of the first child from `from` on that has no rank from an earlier round.
fn first_open(ranks: &[u32], children: &[u32], from: usize, round: u32) -> Option<usize>
    requires { (i : ℕ) → i < length children.now
        → slice_index_or children.now i 0 < length ranks.now }
    ensures later { IfSome result (λ place. from ≤ place) }
    ensures within { IfSome result (λ place. place < length children.now) }
    ensures open { IfSome result (λ place. IsOpen ranks.now round
        (slice_index_or children.now place 0)) }
    ensures before { IfSome result (λ place. (i : ℕ) → from ≤ i → i < place
        → IsEarlier ranks.now round (slice_index_or children.now i 0)) }
    ensures none { IfNone result ((i : ℕ) → from ≤ i → i < length children.now
        → IsEarlier ranks.now round (slice_index_or children.now i 0)) }
{
    for place in from..children.len() {
        let rank = ranks[children[place] as usize];
        if rank == 0 || round < rank {
            return Some(place);
        }
    }
    None
}

impl Ranking {
    ghost use Rattle.fort_infinity.specs.Rankings.{rank_of, passed_of, waiting_of, HasRoom, IsAdvanced, AreTried, AreReady, AreSomeReady, AreWoken, HasUnranked};

    /// Nothing is known yet.
    fn new(alloc: Global, states: u32) -> Result<Ranking, AllocError>
        ensures room { IfOk result (λ s. HasRoom s states) }
        ensures ranks { IfOk result (λ s. (q : ℕ) → rank_of s q ≡ 0) }
        ensures passed { IfOk result (λ s. (q : ℕ) → passed_of s q ≡ 0) }
        ensures waiting { IfOk result (λ s. (q : ℕ) → waiting_of s q ≡ []) }
    {
        Ok(Ranking {
            ranks: vec![in alloc; 0u32; states as usize]?,
            passed: vec![in alloc; 0usize; states as usize]?,
            waiting: StateLists::new(alloc, states)?,
        })
    }

    /// Lets a state wait for one of its children, or ranks it where none is left.
    fn advance(
        &mut self,
        children: &StateLists,
        q: u32,
        round: u32,
        ranked: &mut Vec<u32>,
    ) -> Result<(), AllocError>
        requires room { HasRoom self.old (length children.now) }
        requires state { q < length children.now }
        requires children { (k i : ℕ) → i < length (slice_index_or children.now k [])
            → slice_index_or (slice_index_or children.now k []) i 0 < length children.now }
        requires early { round < length children.now }
        requires small { length children.now < 2 ^ 32 }
        ensures advanced { OnOk result (IsAdvanced children.now round q self.old self.new
            ranked.old.items ranked.new.items) }
        ensures memory { OnErr result (rank_of self.new q ≡ rank_of self.old q) }
    {
        let own = children.list(q);
        match first_open(&self.ranks, own, self.passed[q as usize], round) {
            Some(place) => {
                self.passed[q as usize] = place;
                self.waiting.append(own[place], &[q])
            }
            None => {
                ranked.reserve(1)?;
                self.ranks[q as usize] = round + 1;
                ranked.push_reserved(q);
                Ok(())
            }
        }
    }

    /// A round over these states. It answers those that it ranks.
    fn round(
        &mut self,
        alloc: Global,
        children: &StateLists,
        tried: &[u32],
        round: u32,
    ) -> Result<Vec<u32>, AllocError>
        requires ready { AreSomeReady children.now round self.old tried.now }
        requires early { round < length children.now }
        requires small { length children.now < 2 ^ 32 }
        ensures tried { IfOk result (λ ranked. (body : tables.Table) (c : ℕ)
            → AreReady body c children.now round self.old tried.now
            → AreTried body c children.now round self.old self.new [] ranked.items) }
        ensures memory { OnErr result ((body : tables.Table) (c : ℕ)
            → AreReady body c children.now round self.old tried.now
            → HasUnranked body c self.new) }
    {
        let mut ranked = Vec::new(alloc);
        for q in tried {
            if self.ranks[*q as usize] == 0 {
                self.advance(children, *q, round, &mut ranked)?;
            }
        }
        Ok(ranked)
    }

    /// The states that waited for these.
    fn woken(&self, alloc: Global, ranked: &[u32]) -> Result<Vec<u32>, AllocError>
        requires { (i : ℕ) → i < length ranked.now
            → slice_index_or ranked.now i 0 < length self.now.waiting }
        ensures woken { IfOk result (λ woken. AreWoken self.now ranked.now woken.items) }
        ensures memory { OnErr result ((k : ℕ) × (q : ℕ) × Contains ranked.now k
            × Contains (waiting_of self.now k) q) }
    {
        let mut woken = Vec::new(alloc);
        for k in ranked {
            woken.extend_from_slice(self.waiting.list(*k))?;
        }
        Ok(woken)
    }

    /// Ranks states in rounds, until a round ranks none. It wants memory only while some state has no rank.
    fn settle(
        &mut self,
        alloc: Global,
        children: &StateLists,
        alone: Vec<u32>,
    ) -> Result<(), AllocError>
        requires ready { AreSomeReady children.now 0 self.old alone.items }
        requires small { length children.now < 2 ^ 32 }
        ensures room { OnOk result (HasRoom self.new (length children.now)) }
        ensures settled { OnOk result ((body : tables.Table) (c : ℕ)
            → AreReady body c children.now 0 self.old alone.items
            → AreSettled body c (rank_of self.new)) }
        ensures memory { OnErr result ((body : tables.Table) (c : ℕ)
            → AreReady body c children.now 0 self.old alone.items
            → HasUnranked body c self.new) }
    {
        let mut tried = alone;
        // Each round but the last ranks some state.
        let rounds = children.states();
        for round in 0..rounds {
            let ranked = self.round(alloc, children, &tried, round)?;
            if ranked.is_empty() {
                return Ok(());
            }
            tried = self.woken(alloc, &ranked)?;
        }
        Ok(())
    }
}

/// The rank of each state, 0 where infinitely many terms give it; `alone` are the pure states. Each child of each state is passed once.
pub(crate) fn settled_ranks(
    alloc: Global,
    children: &StateLists,
    alone: &[u32],
) -> Result<Vec<u32>, AllocError>
    requires ready { (body : tables.Table) × (c : ℕ) × IsPureColumn body c alone.now
        × AreChildren body c children.now }
    requires small { length children.now < 2 ^ 32 }
    ensures count { IfOk result (λ ranks. length ranks.items ≡ length children.now) }
    ensures settled { IfOk result (λ ranks. (body : tables.Table) (c : ℕ)
        → IsPureColumn body c alone.now → AreChildren body c children.now
        → AreSettled body c (λ q. slice_index_or ranks.items q 0)) }
{
    let mut ranking = Ranking::new(alloc, children.states())?;
    let tried = alone.to_vec(alloc)?;
    ranking.settle(alloc, children, tried)?;
    Ok(ranking.ranks)
}
