//! Tables as lists of entries with their targets.
ghost use Rattle.std.specs.Prelude.{◌≡◌, ℕ, ◌+◌, ◌-◌, ◌*◌, ◌<◌, ◌≤◌, ◌^◌, ◌↔◌, length, slice_index, slice_index_or, Contains, IsTrue, IfOk, true, false};
ghost use Rattle.fort_tables.specs.Entries.{Entry, entry, no_entry};
ghost use Rattle.fort_lockstep.specs.SymbolCounts.{count_with};
ghost use Rattle.fort_tables.specs.Tables.{IsTableEntry, IsListed, IsFirstWith, full_presence, listed_table, target_in};
ghost use Rattle.fort_lockstep.specs.OtherFinals.{with_finals};
ghost use Rattle.fort_target_lists.specs.TargetLists.{IsTargetListOf};

use crate::steps::Steps;
use fort_entry_walk::Entries;
use fort_table::{EntryList, Table};
use fort_target_lists::TargetList;
use fort_terms::Signature;
use fort_tuple_symbols::{Row, TupleSym};
use std::alloc::AllocError;
use std::marker::Model;
use std::rc::Rc;
use std::sync::ledger::Ledger;

/// What a table shares with those that differ in their accepting states alone.
#[derive(Drop)]
pub struct Shared {
    pub signature: Signature,
    pub columns: usize,
    pub presences: Vec<u16>,
    /// The first entry of each state.
    pub first_entries: EntryList,
    /// The targets of all entries, each at its place by the ranks of its children's states.
    pub list: TargetList,
}

/// A table as the list of its entries, with their targets.
#[derive(Drop)]
pub struct Dta {
    pub(crate) shared: Rc<Shared>,
    pub(crate) finals: Vec<bool>,
}

impl Model for Dta {
    ghost use Rattle.fort_tables.specs.Tables.{Listed};

    ghost Value = { Listed };

    ghost use Rattle.fort_lockstep.specs.DtaInside.{listed_in, IsDta};

    ghost view = { listed_in };

    ghost invariant = { IsDta };
}

impl Dta {
    /// The entries over its own signature, from the first.
    pub fn entries(&self) -> Entries<'_>
        ensures signature { result.signature ≡ self.now.signature }
        ensures columns { result.columns ≡ self.now.columns }
        ensures start { result.last ≡ no_entry self.now.columns }
        ensures lawful { IsListed self.now }
        ensures finals { length self.now.finals ≡ length self.now.presences }
    {
        let shared = self.shared.as_ref();
        Entries::new(&shared.signature, shared.columns)
    }

    /// The entry that made a state.
    pub fn first(&self, q: u32) -> Row
        requires { q < length self.now.presences }
        ensures { IsFirstWith self.now.entries self.now.targets q result }
    {
        self.shared.as_ref().first_entries.get(q as usize)
    }

    /// The targets of all entries in one list, as the table keeps them.
    pub fn list(&self) -> &TargetList
        ensures { IsTargetListOf (listed_table self.now) result.now }
    {
        &self.shared.as_ref().list
    }

    /// The state of an entry; each comparison of two lists of child states is one step. There are none: the target is read at its place.
    /// Promised to callers: the program itself doesn't call it.
    pub fn target_counted<L: Ledger>(
        &self,
        sym: &TupleSym,
        kids: &[u32],
        steps: &mut Steps<L>,
    ) -> u32
        requires { IsTableEntry (listed_table self.now) (entry sym.now kids.now) }
        ensures target { result ≡ (listed_table self.now).target (entry sym.now kids.now) }
        ensures grows { steps.old ≤ steps.new }
        ensures cost { 2 ^ (steps.new - steps.old) ≤ 2 * count_with sym.now self.now.entries + 1 }
    {
        let _none = steps;
        self.shared.as_ref().list.target(sym, kids)
    }

    /// The same table with these accepting states. Both share their entries, so that it takes room for the states alone.
    pub fn with_finals(&self, finals: Vec<bool>) -> Result<Dta, AllocError>
        requires count { length finals.items ≡ length self.now.presences }
        requires full { (q : ℕ) → q < length self.now.presences
            → slice_index_or finals.items q false ≡ true
            → slice_index_or self.now.presences q 0 ≡ full_presence self.now.columns }
        ensures table { IfOk result (λ t. t ≡ with_finals self.now finals.items) }
        ensures lawful { IfOk result IsListed }
    {
        Ok(Dta {
            shared: self.shared.clone()?,
            finals,
        })
    }
}

impl Table for Dta {
    ghost table = { listed_table };

    fn signature(&self) -> &Signature {
        &self.shared.as_ref().signature
    }

    fn columns(&self) -> usize {
        self.shared.as_ref().columns
    }

    fn states(&self) -> u32 {
        self.shared.as_ref().presences.len() as u32
    }

    fn presence(&self, q: u32) -> u16 {
        self.shared.as_ref().presences[q as usize]
    }

    fn is_final(&self, q: u32) -> bool {
        self.finals[q as usize]
    }

    fn target(&self, sym: &TupleSym, kids: &[u32]) -> u32 {
        self.shared.as_ref().list.target(sym, kids)
    }
}
