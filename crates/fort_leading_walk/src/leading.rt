//! The walk through the leading entries in their order.
ghost use Rattle.std.specs.Prelude.{◌≡◌, ℕ, ◌-◌, ◌^◌, ◌<◌, ◌≤◌, List, map, length, slice_index_or, true, false, OnOk, IfOk};
ghost use Rattle.fort_theory.specs.Signatures as theory;
ghost use Rattle.fort_tables.specs.Entries.{no_entry};
ghost use Rattle.fort_tables.specs.Labels.{first_word};
ghost use Rattle.fort_tuple_symbols.specs.Columns.{symbol_of};
ghost use Rattle.fort_classes.specs.Leaders.{Leaders};
ghost use Rattle.fort_classes.specs.Keys.{leaders_by};
ghost use Rattle.fort_entry_walk.specs.WalkPlaces.{place};
ghost use Rattle.fort_leading_walk.specs.Choices.{choices, GivesChoice};
ghost use Rattle.fort_leading_walk.specs.Turns.{MayTurn};
ghost use Rattle.fort_leading_walk.specs.LeadingPlaces.{kids_of, leading_place, leading_entry, leaders_at, StandsAt, IsLeadingStep};
ghost use Rattle.fort_leading_walk.specs.LeadingFacts.{leading_after, later_leading, IsFirstLeading, IsStepAmong};

use crate::choices::{Choice, first};
use crate::leader_lists::LeaderLists;
use crate::symbol_leaders::SymbolLeaders;
use fort_entry_walk::Walk;
use fort_labels::Rows;
use fort_terms::Signature;
use fort_tuple_symbols::Row;
use std::alloc::AllocError;

/// A walk through the leading entries in their order.
#[derive(Drop)]
pub struct LeadingWalk {
    /// Its child states are those that come first without regard to leaders.
    pub walk: Walk,
    /// The child states, where there are any.
    pub choice: Option<Choice>,
}

/// Turns to the walk's symbol, which has children: the first choice of leaders.
fn first_choice<L: SymbolLeaders>(
    walk: &Walk,
    leaders: &mut L,
    rows: &Rows,
) -> Result<Option<Choice>, AllocError>
    requires some { 0 < walk.now.stage }
    requires within { walk.now.stage ≤ length rows.now.labels }
    requires numbers { length rows.now.labels < 2 ^ 32 }
    requires width { rows.now.width ≡ L.word_count leaders.old }
    requires columns { length walk.now.digits ≤ 16 }
    requires small { (k : ℕ) → slice_index_or walk.now.digits k 0 ≤ 65536 }
    requires known { (sig : theory.Signature) × (columns : ℕ) × (until : ℕ)
        × MayTurn (L.knows leaders.old) sig columns rows.now.labels until
        (symbol_of walk.now.digits) walk.now.wanted (walk.now.stage - 1) }
    ensures asked { L.keys leaders.new ≡ L.keys leaders.old }
    ensures width { L.word_count leaders.new ≡ L.word_count leaders.old }
    ensures known { OnOk result ((sig : theory.Signature) (columns until : ℕ)
        → MayTurn (L.knows leaders.old) sig columns rows.now.labels until
        (symbol_of walk.now.digits) walk.now.wanted (walk.now.stage - 1)
        → L.knows leaders.new sig columns rows.now.labels walk.now.stage) }
    ensures turned { OnOk result (L.lists leaders.new ≡ leaders_at
        (leaders_by (L.keys leaders.old) rows.now.labels) (map first_word rows.now.labels)
        (place walk.now)) }
    ensures first { IfOk result (λ found. GivesChoice (walk.now.stage - 1) (L.lists leaders.new)
        (choices (walk.now.stage - 1) (L.lists leaders.new) false) found) }
{
    let newest = walk.stage - 1;
    let wanted = walk.wanted.states();
    leaders.turn_to(rows, walk.digits.digits(), wanted, newest)?;
    Ok(first(leaders, newest))
}

impl LeadingWalk {
    /// Stands before the first entry.
    pub fn new(sig: &Signature, columns: usize) -> LeadingWalk
        requires { columns ≤ 16 }
        ensures start { leading_entry result ≡ no_entry columns }
        ensures columns { length result.walk.digits ≡ columns }
        ensures stage { result.walk.stage ≡ 0 }
        ensures stands { (lead : Leaders) (ps : List ℕ) (lists : List (List ℕ))
            → StandsAt sig.now lead ps lists result }
    {
        LeadingWalk {
            walk: Walk::new(sig, columns),
            choice: None,
        }
    }

    /// The child states.
    fn kids(&self) -> &[u32]
        ensures states { result.now ≡ kids_of self.now.choice }
        ensures few { length result.now ≤ 8 }
    {
        match &self.choice {
            None => &[],
            Some(choice) => choice.leaders(),
        }
    }

    /// Writes the child states over those of a row.
    fn write_kids(&self, row: &mut Row)
        ensures symbol { row.new.symbol ≡ row.old.symbol }
        ensures kids { row.new.kids ≡ kids_of self.now.choice }
    {
        let kids = self.kids();
        if kids.len() == 2 {
            row.put_pair(kids[0], kids[1]);
        } else {
            row.put_kids(kids);
        }
    }

    /// Goes to the next choice of its symbol's leaders, where there is one, and else stays.
    fn advance_choice<L: LeaderLists>(&mut self, leaders: &L) -> bool
        requires { (sig : theory.Signature) × (lead : Leaders) × (ps : List ℕ)
            × StandsAt sig lead ps (L.lists leaders.now) self.old }
        ensures walk { self.new.walk ≡ self.old.walk }
        ensures next { result ≡ true → (sig : theory.Signature) (lead : Leaders) (ps : List ℕ)
            → StandsAt sig lead ps (L.lists leaders.now) self.old
            → IsFirstLeading sig lead ps (L.lists leaders.now)
            (leading_after sig ps lead (leading_place self.old)) self.new }
        ensures none { result ≡ false → (sig : theory.Signature) (lead : Leaders) (ps : List ℕ)
            → StandsAt sig lead ps (L.lists leaders.now) self.old
            → leading_after sig ps lead (leading_place self.old)
            ≡ later_leading sig ps lead self.old.walk.stage self.old.walk.digits }
        ensures stays { result ≡ false → self.new ≡ self.old }
    {
        match &mut self.choice {
            None => false,
            Some(choice) => choice.advance(leaders, self.walk.stage - 1),
        }
    }

    /// Goes to the first leading entry of a later symbol of its stage, or of a later stage, where there is one, and else stays.
    fn advance_symbol<L: SymbolLeaders>(
        &mut self,
        sig: &Signature,
        presences: &[u16],
        leaders: &mut L,
        rows: &Rows,
    ) -> Result<bool, AllocError>
        requires stands { StandsAt sig.now (leaders_by (L.keys leaders.old) rows.now.labels)
            presences.now (L.lists leaders.old) self.old }
        requires known { (until : ℕ) × L.knows leaders.old sig.now (length self.old.walk.digits)
            rows.now.labels until × (until ≤ self.old.walk.stage) }
        requires width { rows.now.width ≡ L.word_count leaders.old }
        requires presences { presences.now ≡ map first_word rows.now.labels }
        requires numbers { length rows.now.labels < 2 ^ 32 }
        ensures columns { OnOk result (length self.new.walk.digits
            ≡ length self.old.walk.digits) }
        ensures asked { L.keys leaders.new ≡ L.keys leaders.old }
        ensures width { L.word_count leaders.new ≡ L.word_count leaders.old }
        ensures known { IfOk result (λ went. went ≡ true → (until : ℕ) × L.knows leaders.new
            sig.now (length self.old.walk.digits) rows.now.labels until
            × (until ≤ self.new.walk.stage)) }
        ensures next { IfOk result (λ went. IsStepAmong sig.now
            (leaders_by (L.keys leaders.old) rows.now.labels) presences.now (L.lists leaders.new)
            (later_leading sig.now presences.now
            (leaders_by (L.keys leaders.old) rows.now.labels) self.old.walk.stage
            self.old.walk.digits) self.new went) }
        ensures stays { IfOk result (λ went. went ≡ false → self.new ≡ self.old) }
    {
        // its clause says that the signature is lawful
        let _symbols = sig.len();
        let mut walk = self.walk.copy();
        'symbols: while walk.to_next_symbol(sig, presences) {
            if walk.stage == 0 {
                self.walk = walk;
                self.choice = None;
                return Ok(true);
            }
            let found = first_choice(&walk, leaders, rows)?;
            match found {
                None => {}
                Some(choice) => {
                    self.walk = walk;
                    self.choice = Some(choice);
                    return Ok(true);
                }
            }
        }
        Ok(false)
    }

    /// Goes to the next leading entry, where there is one, and else stays; the row becomes that of the entry. Where there is none,
    /// the leaders have turned to later symbols, and the walk cannot go on from there.
    pub fn advance_row<L: SymbolLeaders>(
        &mut self,
        sig: &Signature,
        presences: &[u16],
        leaders: &mut L,
        rows: &Rows,
        row: &mut Row,
    ) -> Result<bool, AllocError>
        requires stands { StandsAt sig.now (leaders_by (L.keys leaders.old) rows.now.labels)
            presences.now (L.lists leaders.old) self.old }
        requires known { (until : ℕ) × L.knows leaders.old sig.now (length self.old.walk.digits)
            rows.now.labels until × (until ≤ self.old.walk.stage) }
        requires width { rows.now.width ≡ L.word_count leaders.old }
        requires presences { presences.now ≡ map first_word rows.now.labels }
        requires numbers { length rows.now.labels < 2 ^ 32 }
        requires row { row.old ≡ leading_entry self.old }
        ensures columns { OnOk result (length self.new.walk.digits
            ≡ length self.old.walk.digits) }
        ensures asked { L.keys leaders.new ≡ L.keys leaders.old }
        ensures width { L.word_count leaders.new ≡ L.word_count leaders.old }
        ensures stands { IfOk result (λ went. went ≡ true → StandsAt sig.now
            (leaders_by (L.keys leaders.new) rows.now.labels) presences.now
            (L.lists leaders.new) self.new) }
        ensures known { IfOk result (λ went. went ≡ true → (until : ℕ) × L.knows leaders.new
            sig.now (length self.new.walk.digits) rows.now.labels until
            × (until ≤ self.new.walk.stage)) }
        ensures next { IfOk result (λ went. IsLeadingStep sig.now (length self.old.walk.digits)
            presences.now (leaders_by (L.keys leaders.old) rows.now.labels)
            (leading_entry self.old) (leading_entry self.new) went) }
        ensures row { OnOk result (row.new ≡ leading_entry self.new) }
    {
        // its clause says that the signature is lawful
        let _symbols = sig.len();
        if self.advance_choice(leaders) {
            self.write_kids(row);
            return Ok(true);
        }
        let is_next = self.advance_symbol(sig, presences, leaders, rows)?;
        row.put(self.walk.digits.digits(), self.kids());
        Ok(is_next)
    }
}
