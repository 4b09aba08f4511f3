//! Tables in the making, of which the leading entries alone are formed.
ghost use Rattle.std.specs.Prelude.{◌≡◌, ◌==◌, ℕ, ◌^◌, ◌<◌, ◌≤◌, if◌then◌else◌, List, [], ◌∷◌, ◌++◌, length, IsTrue, IsFalse, IfOk, OnOk, IfSome, IfNone};
ghost use Rattle.fort_tables.specs.Tuples.{presence};
ghost use Rattle.fort_tables.specs.Tables.{Made};
ghost use Rattle.fort_table.specs.EntryListFacts.{entries_in, AreSpans};
ghost use Rattle.fort_leading_tables.specs.LeadingMaking.{IsMakerOf, IsTargetOf, none_made, given, turned};

use crate::leading_targets::LeadingTargets;
use fort_labels::Rows;
use fort_leading_walk::{LeadingWalk, SymbolLeaders};
use fort_table::EntryList;
use fort_terms::Signature;
use fort_tuple_symbols::{Row, TupleSym};
use std::alloc::{AllocError, Global};

/// Makes a table by its leading entries, one after another in their order.
#[derive(Drop)]
pub struct LeadingMaker {
    /// The presences of the states so far.
    pub presences: Vec<u16>,
    /// The first entry of each state so far.
    pub first_entries: EntryList,
    /// The targets of the leading entries so far.
    pub targets: LeadingTargets,
    pub walk: LeadingWalk,
    /// The entry at which the walk stands.
    pub row: Row,
    pub is_due: bool,
}

/// A new state has the presence of its entry, which is its first one.
fn note_state(
    presences: &mut Vec<u16>,
    first_entries: &mut EntryList,
    row: &Row,
    target: u32,
) -> Result<(), AllocError>
    requires { AreSpans first_entries.old.numbers.items first_entries.old.spans.items }
    ensures presences { OnOk result (presences.new.items
        ≡ (if target == length presences.old.items
        then presences.old.items ++ presence row.now.symbol ∷ [] else presences.old.items)) }
    ensures spans { OnOk result (AreSpans first_entries.new.numbers.items
        first_entries.new.spans.items) }
    ensures firsts { OnOk result (entries_in first_entries.new.numbers.items
        first_entries.new.spans.items ≡ (if target == length presences.old.items
        then entries_in first_entries.old.numbers.items first_entries.old.spans.items
        ++ row.now ∷ []
        else entries_in first_entries.old.numbers.items first_entries.old.spans.items)) }
{
    if target as usize == presences.len() {
        presences.push(row.presence())?;
        first_entries.make_room()?;
        first_entries.push(row);
    }
    Ok(())
}

impl LeadingMaker {
    /// No states yet.
    pub fn new<L: SymbolLeaders>(
        alloc: Global,
        sig: &Signature,
        columns: usize,
        leaders: &mut L,
        rows: &Rows,
    ) -> Result<LeadingMaker, AllocError>
        requires some { 0 < columns }
        requires narrow { columns ≤ 16 }
        requires none { rows.now.labels ≡ [] }
        requires width { rows.now.width ≡ L.word_count leaders.old }
        requires known { L.knows leaders.old sig.now columns [] 0 }
        ensures asked { L.keys leaders.new ≡ L.keys leaders.old }
        ensures width { L.word_count leaders.new ≡ L.word_count leaders.old }
        ensures made { IfOk result (IsMakerOf
            (turned (L.keys leaders.new) (L.lists leaders.new) (L.knows leaders.new)) []
            (none_made sig.now columns)) }
    {
        let mut walk = LeadingWalk::new(sig, columns);
        let mut row = Row::new(TupleSym::absent(columns), &[]);
        let is_due = walk.advance_row(sig, &[], leaders, rows, &mut row)?;
        Ok(LeadingMaker {
            presences: Vec::new(alloc),
            first_entries: EntryList::new(alloc),
            targets: LeadingTargets::new(alloc),
            walk,
            row,
            is_due,
        })
    }

    /// The first leading entry over the states so far that has no target.
    pub fn due_row(&self) -> Option<&Row>
        ensures some { IfSome result (λ e. (e.now ≡ self.now.row) × IsTrue self.now.is_due) }
        ensures none { IfNone result (IsFalse self.now.is_due) }
    {
        if self.is_due { Some(&self.row) } else { None }
    }

    /// Gives the due entry its target, an earlier state or the next new one, whose label has been added by now.
    pub fn give<L: SymbolLeaders>(
        &mut self,
        alloc: Global,
        sig: &Signature,
        target: u32,
        leaders: &mut L,
        rows: &Rows,
    ) -> Result<(), AllocError>
        requires due { IsTrue self.old.is_due }
        requires numbers { length rows.now.labels < 2 ^ 32 }
        requires width { rows.now.width ≡ L.word_count leaders.old }
        requires made { (labels : List (List ℕ)) × (m : Made) × (m.signature ≡ sig.now)
            × IsMakerOf (turned (L.keys leaders.old) (L.lists leaders.old) (L.knows leaders.old))
            labels m self.old × IsTargetOf labels rows.now.labels self.old.row target }
        ensures asked { L.keys leaders.new ≡ L.keys leaders.old }
        ensures width { L.word_count leaders.new ≡ L.word_count leaders.old }
        ensures given { OnOk result ((labels : List (List ℕ)) (m : Made) → m.signature ≡ sig.now
            → IsMakerOf (turned (L.keys leaders.old) (L.lists leaders.old) (L.knows leaders.old))
            labels m self.old → IsTargetOf labels rows.now.labels self.old.row target
            → IsMakerOf (turned (L.keys leaders.new) (L.lists leaders.new) (L.knows leaders.new))
            rows.now.labels (given m self.old.row target) self.new) }
    {
        note_state(
            &mut self.presences,
            &mut self.first_entries,
            &self.row,
            target,
        )?;
        self.targets.push(alloc, &self.row, target)?;
        let presences = self.presences.as_slice();
        self.is_due = self
            .walk
            .advance_row(sig, presences, leaders, rows, &mut self.row)?;
        Ok(())
    }
}
