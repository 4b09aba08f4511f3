//! Tables in the making.
ghost use Rattle.std.specs.Prelude.{◌≡◌, ℕ, ◌+◌, ◌^◌, ◌<◌, ◌≤◌, [], length, IfOk, OnOk, OnErr, IfSome, IfNone};
ghost use Rattle.fort_tables.specs.Entries.{Entry};
ghost use Rattle.fort_tables.specs.Tables.{IsMadeDue, IsComplete, IsAllowed, IsGiven, AreFinals, IsListed, finished};

use crate::dta::{Dta, Shared};
use crate::states::States;
use fort_entry_walk::Walk;
use fort_target_lists::TargetList;
use fort_terms::Signature;
use fort_tuple_symbols::Row;
use std::alloc::{AllocError, Global};
use std::marker::Model;
use std::rc::Rc;

/// Makes a table, entry by entry in their order.
#[derive(Drop)]
pub struct Maker {
    signature: Signature,
    columns: usize,
    states: States,
    /// The targets of the entries so far, in their order.
    targets: Vec<u32>,
    walk: Walk,
    /// The entry at which the walk stands.
    row: Row,
    is_due: bool,
}

impl Model for Maker {
    ghost use Rattle.fort_tables.specs.Tables.{Made};

    ghost Value = { Made };

    ghost use Rattle.fort_lockstep.specs.MakerInside.{made_in, IsMaker};

    ghost view = { made_in };

    ghost invariant = { IsMaker };
}

impl Maker {
    /// No states yet; the signature is copied.
    pub fn new(alloc: Global, sig: &Signature, columns: usize) -> Result<Maker, AllocError>
        requires some { 0 < columns }
        requires narrow { columns ≤ 16 }
        ensures signature { IfOk result (λ m. m.signature ≡ sig.now) }
        ensures columns { IfOk result (λ m. m.columns ≡ columns) }
        ensures presences { IfOk result (λ m. m.presences ≡ []) }
        ensures entries { IfOk result (λ m. m.entries ≡ []) }
        ensures targets { IfOk result (λ m. m.targets ≡ []) }
    {
        let signature = sig.copy(alloc)?;
        // its clause says that the signature is lawful
        let _symbols = signature.len();
        let mut walk = Walk::new(&signature, columns);
        let mut row = walk.row();
        let is_due = walk.advance_row(&signature, &[], &mut row);
        Ok(Maker {
            signature,
            columns,
            states: States::new(alloc),
            targets: Vec::new(alloc),
            walk,
            row,
            is_due,
        })
    }

    /// The first entry over the states so far that has no target.
    pub fn due(&self) -> Option<Row>
        ensures some { IfSome result (λ e. IsMadeDue self.now e) }
        ensures none { IfNone result (IsComplete self.now) }
        ensures counted { length self.now.targets < 2 ^ 64 }
    {
        match self.due_row() {
            Some(row) => Some(*row),
            None => None,
        }
    }

    /// The same, as the maker has it.
    pub fn due_row(&self) -> Option<&Row>
        ensures some { IfSome result (λ e. IsMadeDue self.now e.now) }
        ensures none { IfNone result (IsComplete self.now) }
        ensures counted { length self.now.targets < 2 ^ 64 }
    {
        // its clause bounds the length
        let _count = self.targets.len();
        if self.is_due { Some(&self.row) } else { None }
    }

    /// Gives the due entry its target, an earlier state or the next new one.
    pub fn give(&mut self, target: u32) -> Result<(), AllocError>
        requires allowed { (e : Entry) × IsAllowed self.old e target }
        requires few { target + 1 < 2 ^ 32 }
        ensures given { OnOk result ((e : Entry) → IsMadeDue self.old e → IsGiven self.old e
            target self.new) }
        ensures err { OnErr result (self.new ≡ self.old) }
    {
        // its clause says that the signature is lawful
        let _symbols = self.signature.len();
        let place = self.targets.len();
        self.states.make_room(target)?;
        self.targets.push(target)?;
        self.states.note(&self.row, target, place);
        let presences = self.states.presences.as_slice();
        self.is_due = self
            .walk
            .advance_row(&self.signature, presences, &mut self.row);
        Ok(())
    }

    /// The table, whose accepting states are those with a true final.
    pub fn finish(self, finals: Vec<bool>) -> Result<Dta, AllocError>
        requires complete { IsComplete self }
        requires finals { AreFinals self finals.items }
        ensures table { IfOk result (λ t. t ≡ finished self finals.items) }
        ensures lawful { IfOk result IsListed }
    {
        let alloc = *finals.allocator();
        let Maker {
            signature,
            columns,
            states,
            targets,
            ..
        } = self;
        let list = TargetList::laid(
            alloc,
            &signature,
            columns,
            states.presences.as_slice(),
            targets.as_slice(),
        )?;
        let States {
            presences,
            first_entries,
            ..
        } = states;
        let own = Shared {
            signature,
            columns,
            presences,
            first_entries,
            list,
        };
        let shared = Rc::new(alloc, own)?;
        Ok(Dta { shared, finals })
    }
}
