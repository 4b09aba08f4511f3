//! A walk over all tuple symbols of a table, which lays the targets that it is told of.
ghost use Rattle.std.specs.Prelude.{◌≡◌, ℕ, ◌+◌, ◌^◌, ◌<◌, ◌≤◌, [], ◌∷◌, ◌++◌, take, length, OnOk, IfOk};
ghost use Rattle.fort_tables.specs.Tables as tables;
ghost use Rattle.fort_target_lists.specs.Places.{IsNumbered, AreCounts};
ghost use Rattle.fort_target_lists.specs.Flats as flats;
ghost use Rattle.fort_target_lists.specs.ToldWalks.{GoesOver, IsBefore, HasLaid};

use crate::chains::Chains;
use crate::columns::{is_present, kid_count, kid_presence};
use crate::entry_count::count_entries;
use crate::entry_targets::EntryTargets;
use crate::flat::Listing;
use fort_terms::Signature;
use fort_tuple_symbols::TupleSym;
use std::alloc::{AllocError, Global};

/// A walk over all tuple symbols of a table.
#[derive(Clone, Copy)]
pub(crate) struct ToldWalk<'a> {
    pub signature: &'a Signature,
    pub columns: usize,
    /// One more than there are symbols.
    pub base: usize,
    /// The table's states by their presences.
    pub chains: &'a Chains,
}

/// The first `j` states and one more.
fn with_kid(mut kids: [u32; 8], j: usize, state: u32) -> [u32; 8]
    requires { j < 8 }
    ensures { take (j + 1) result ≡ take j kids ++ state ∷ [] }
{
    kids[j] = state;
    kids
}

impl<'a> ToldWalk<'a> {
    /// Lays the targets of a tuple symbol's entries over first child states, `j` of them, and `rest` others.
    fn lay_kids<T: EntryTargets>(
        &self,
        symbol: &TupleSym,
        kids: [u32; 8],
        j: usize,
        rest: usize,
        targets: &T,
        laid: &mut Vec<u32>,
    ) -> Result<(), AllocError>
        requires some { 0 < rest }
        requires few { j + rest ≤ 8 }
        requires before { (body : tables.Table)
            × IsBefore body self.now symbol.now (take j kids) j rest
            × T.turned targets.now body symbol.now }
        ensures { OnOk result ((body : tables.Table)
            → IsBefore body self.now symbol.now (take j kids) j rest
            → T.turned targets.now body symbol.now → laid.new.items
            ≡ laid.old.items ++ flats.laid body symbol.now (take j kids) j rest) }
    {
        if rest == 1 {
            return targets.push_row(&kids[..j], laid);
        }
        let states = self.chains.nexts.len();
        let mut q = self.chains.first(kid_presence(self.signature, symbol, j));
        'states: while (q as usize) < states {
            let more = with_kid(kids, j, q);
            self.lay_kids(symbol, more, j + 1, rest - 1, targets, laid)?;
            q = self.chains.next(q);
        }
        Ok(())
    }

    /// Lays the targets of a tuple symbol's entries, all of those with lesser numbers being laid.
    fn lay_symbol<T: EntryTargets>(
        &self,
        symbol: &TupleSym,
        targets: &mut T,
        listing: &mut Listing,
    ) -> Result<(), AllocError>
        requires { (n : ℕ) × (body : tables.Table)
            × IsNumbered self.now.base self.now.columns n symbol.now × GoesOver body self.now
            × T.tells targets.old body }
        ensures laid { OnOk result ((n : ℕ) (body : tables.Table)
            → IsNumbered self.now.base self.now.columns n symbol.now
            → T.tells targets.old body
            → HasLaid body self.now n listing.old.starts.items listing.old.targets.items
            → HasLaid body self.now (n + 1) listing.new.starts.items listing.new.targets.items) }
        ensures tells { OnOk result ((body : tables.Table) → T.tells targets.old body
            → T.tells targets.new body) }
    {
        listing.starts.push(listing.targets.len())?;
        if !is_present(symbol) {
            return Ok(());
        }
        targets.turn(symbol)?;
        let count = kid_count(self.signature, symbol);
        if count == 0 {
            targets.push_target(&mut listing.targets)
        } else {
            self.lay_kids(symbol, [0; 8], 0, count, targets, &mut listing.targets)
        }
    }

    /// Lays the targets of all entries, where there are so many tuple symbols.
    fn lay_all<T: EntryTargets>(
        &self,
        count: usize,
        targets: &mut T,
        listing: &mut Listing,
    ) -> Result<(), AllocError>
        requires count { count ≡ self.now.base ^ self.now.columns }
        requires told { (body : tables.Table) × GoesOver body self.now
            × T.tells targets.old body }
        ensures { OnOk result ((body : tables.Table) → T.tells targets.old body
            → HasLaid body self.now 0 listing.old.starts.items listing.old.targets.items
            → HasLaid body self.now count listing.new.starts.items listing.new.targets.items) }
    {
        // its clause says that the signature is lawful
        let _symbols = self.signature.len();
        let mut symbol = TupleSym::absent(self.columns);
        for _ in 0..count {
            self.lay_symbol(&symbol, targets, listing)?;
            symbol.to_next(self.base);
        }
        Ok(())
    }

    /// The targets of all entries, where so many states have each presence.
    pub fn listing<T: EntryTargets>(
        &self,
        alloc: Global,
        counts: &[u32],
        targets: &mut T,
    ) -> Result<Listing, AllocError>
        requires size { length counts.now ≡ 2 ^ self.now.columns }
        requires told { (body : tables.Table) × GoesOver body self.now
            × AreCounts body.presences counts.now × T.tells targets.old body }
        ensures few { IfOk result (λ _. self.now.base ^ self.now.columns < 2 ^ 64) }
        ensures laid { IfOk result (λ l. (body : tables.Table) → GoesOver body self.now
            → T.tells targets.old body → flats.AreLaid body self.now.base
            (self.now.base ^ self.now.columns) l.starts.items l.targets.items) }
    {
        let count = self.base.saturating_pow(self.columns as u32);
        // where there is memory for the starts, there are no more tuple symbols than a word counts
        let starts = Vec::with_capacity(alloc, count)?;
        let entries = count_entries(self.signature, self.columns, self.base, count, counts);
        let mut listing = Listing {
            starts,
            targets: Vec::with_capacity(alloc, entries)?,
        };
        self.lay_all(count, targets, &mut listing)?;
        Ok(listing)
    }
}
