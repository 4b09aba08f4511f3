//! Walks over all entries of a table, tuple symbol by tuple symbol.
ghost use Rattle.std.specs.Prelude.{◌≡◌, ℕ, ◌+◌, ◌^◌, ◌<◌, ◌≤◌, List, [], ◌∷◌, ◌++◌, length, vec_capacity, IsTrue};
ghost use Rattle.fort_tables.specs.Tuples.{TupleSymbol};
ghost use Rattle.fort_tables.specs.Tables as tables;
ghost use Rattle.fort_target_lists.specs.Places.{IsNumbered};
ghost use Rattle.fort_target_lists.specs.Walks.{IsStopOf, HasPassedTo, HasPassedBehind, IsBetween, Stop};

use crate::chains::Chains;
use crate::columns::{is_present, kid_count, kid_presence};
use crate::flat::Listing;
use fort_terms::Signature;
use fort_tuple_symbols::TupleSym;

/// A walk over all entries of a table. Each stage has a cursor, which goes on by one at each entry of the stage.
#[derive(Clone, Copy)]
pub struct LayingWalk<'a> {
    pub signature: &'a Signature,
    pub columns: usize,
    /// One more than there are symbols.
    pub base: usize,
    /// The table's states by their presences.
    pub chains: &'a Chains,
    /// The targets in the order of the table's entries.
    pub targets: &'a [u32],
    /// Whether the target at the cursor is laid at each entry; else entries are only counted.
    pub lays: bool,
}

impl<'a> LayingWalk<'a> {
    /// Passes an entry of this stage.
    fn pass(&self, stage: usize, cursors: &mut [usize], laid: &mut Vec<u32>)
        requires at { (f : TupleSymbol) × (p : Stop) × IsStopOf p self.now f stage 0 0
            × HasPassedTo p self.now.lays cursors.old laid.old.items }
        requires room { IsTrue self.now.lays → length self.now.targets.now ≤ vec_capacity laid.old }
        ensures passed { (f : TupleSymbol) (p : Stop) → IsStopOf p self.now f stage 0 0
            → HasPassedTo p self.now.lays cursors.old laid.old.items
            → HasPassedBehind p self.now.lays f 0 0 cursors.new laid.new.items }
        ensures room { vec_capacity laid.new ≡ vec_capacity laid.old }
    {
        let cursor = cursors[stage];
        if self.lays {
            laid.push_reserved(self.targets[cursor]);
        }
        cursors[stage] = cursor + 1;
    }

    /// Passes the entries of a tuple symbol over first child states, `j` of them and of stage `latest`, and `rest` others.
    fn pass_kids(
        &self,
        symbol: &TupleSym,
        latest: usize,
        j: usize,
        rest: usize,
        cursors: &mut [usize],
        laid: &mut Vec<u32>,
    )
        requires some { 0 < rest }
        requires few { j + rest ≤ 8 }
        requires at { (p : Stop) × IsStopOf p self.now symbol.now latest j rest
            × HasPassedTo p self.now.lays cursors.old laid.old.items }
        requires room { IsTrue self.now.lays → length self.now.targets.now ≤ vec_capacity laid.old }
        ensures passed { (p : Stop) → IsStopOf p self.now symbol.now latest j rest
            → HasPassedTo p self.now.lays cursors.old laid.old.items
            → HasPassedBehind p self.now.lays symbol.now j rest cursors.new laid.new.items }
        ensures room { vec_capacity laid.new ≡ vec_capacity laid.old }
    {
        let states = self.chains.nexts.len();
        let mut q = self.chains.first(kid_presence(self.signature, symbol, j));
        'states: while (q as usize) < states {
            let stage = latest.max(q as usize + 1);
            if rest == 1 {
                self.pass(stage, cursors, laid);
            } else {
                self.pass_kids(symbol, stage, j + 1, rest - 1, cursors, laid);
            }
            q = self.chains.next(q);
        }
    }

    /// Notes where the targets of the next tuple symbol start.
    fn begin(&self, listing: &mut Listing)
        requires room { IsTrue self.now.lays
            → length listing.old.starts.items < vec_capacity listing.old.starts }
        ensures starts { IsTrue self.now.lays → listing.new.starts.items
            ≡ listing.old.starts.items ++ length listing.old.targets.items ∷ [] }
        ensures targets { listing.new.targets ≡ listing.old.targets }
        ensures room { vec_capacity listing.new.starts ≡ vec_capacity listing.old.starts }
    {
        if self.lays {
            listing.starts.push_reserved(listing.targets.len());
        }
    }

    /// Passes the entries of a tuple symbol, all of those with lesser numbers being passed.
    fn pass_symbol(&self, symbol: &TupleSym, cursors: &mut [usize], listing: &mut Listing)
        requires between { (n : ℕ) × (t : tables.Listed) × (begins : List ℕ)
            × IsNumbered self.now.base self.now.columns n symbol.now
            × IsBetween t begins self.now n cursors.old listing.old.starts.items
            listing.old.targets.items }
        requires starts { IsTrue self.now.lays
            → length listing.old.starts.items < vec_capacity listing.old.starts }
        requires room { IsTrue self.now.lays
            → length self.now.targets.now ≤ vec_capacity listing.old.targets }
        ensures between { (n : ℕ) (t : tables.Listed) (begins : List ℕ)
            → IsNumbered self.now.base self.now.columns n symbol.now
            → IsBetween t begins self.now n cursors.old listing.old.starts.items
            listing.old.targets.items
            → IsBetween t begins self.now (n + 1) cursors.new listing.new.starts.items
            listing.new.targets.items }
        ensures starts { vec_capacity listing.new.starts ≡ vec_capacity listing.old.starts }
        ensures room { vec_capacity listing.new.targets ≡ vec_capacity listing.old.targets }
    {
        self.begin(listing);
        if !is_present(symbol) {
            return;
        }
        let count = kid_count(self.signature, symbol);
        if count == 0 {
            self.pass(0, cursors, &mut listing.targets);
        } else {
            self.pass_kids(symbol, 0, 0, count, cursors, &mut listing.targets);
        }
    }

    /// Passes all entries, where there are so many tuple symbols.
    pub(crate) fn pass_all(&self, count: usize, cursors: &mut [usize], listing: &mut Listing)
        requires count { count ≡ self.now.base ^ self.now.columns }
        requires between { (t : tables.Listed) × (begins : List ℕ) × IsBetween t begins self.now 0
            cursors.old listing.old.starts.items listing.old.targets.items }
        requires starts { IsTrue self.now.lays → count ≤ vec_capacity listing.old.starts }
        requires room { IsTrue self.now.lays
            → length self.now.targets.now ≤ vec_capacity listing.old.targets }
        ensures between { (t : tables.Listed) (begins : List ℕ) → IsBetween t begins self.now 0
            cursors.old listing.old.starts.items listing.old.targets.items
            → IsBetween t begins self.now count cursors.new listing.new.starts.items
            listing.new.targets.items }
        ensures starts { vec_capacity listing.new.starts ≡ vec_capacity listing.old.starts }
        ensures room { vec_capacity listing.new.targets ≡ vec_capacity listing.old.targets }
    {
        // its clause says that the signature is lawful
        let _symbols = self.signature.len();
        let mut symbol = TupleSym::absent(self.columns);
        for _ in 0..count {
            self.pass_symbol(&symbol, cursors, listing);
            symbol.to_next(self.base);
        }
    }
}
