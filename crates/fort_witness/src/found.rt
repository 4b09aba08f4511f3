//! The candidates of a round: rows over nodes that give states that no node has.
ghost use Rattle.std.specs.Prelude.{◌≡◌, ℕ, ◌∷◌, ◌++◌, ◌<◌, [], length, replicate, slice_index_or, slice_set, OnOk, IfOk};
ghost use Rattle.std.specs.List.Sorted.{IsPermutation, IsSortedBy};
ghost use Rattle.fort_tables.specs.Entries.{Entry};
ghost use Rattle.fort_tables.specs.Tables.{listed_table};
ghost use Rattle.fort_witness.specs.declared.found.Mark.TheVariants.{Unseen, Found as HasPlace};
ghost use Rattle.fort_witness.specs.RowOrder.{AreAlike};
ghost use Rattle.fort_witness.specs.Rounds.{over_states as over_states_lem, IsCandidate};
ghost use Rattle.fort_witness.specs.Searching.{states_of, AreFound, Leads, IsFirstOf, IsWeighed, AreKnownNow, row_less};

use crate::order::row_order;
use fort_lockstep::Dta;
use fort_table::Table;
use fort_tuple_symbols::Row;
use std::alloc::{AllocError, Global};
use std::cmp::Ordering;

/// A state with the first row over nodes that gives it.
#[derive(Clone, Copy)]
pub struct Candidate {
    pub state: u32,
    pub row: Row,
}

/// What is known of a state.
#[derive(Clone, Copy)]
pub enum Mark {
    Unseen,
    /// It has the candidate at this place.
    Found(usize),
    /// A node has it.
    Known,
}

/// The candidates so far, and a mark for each state.
#[derive(Drop)]
pub struct Search {
    pub marks: Vec<Mark>,
    pub candidates: Vec<Candidate>,
}

/// The row over the states of its nodes.
pub fn over_states(states: &[u32], row: &Row) -> Row
    requires { (j : ℕ) → j < length row.now.kids
        → slice_index_or row.now.kids j 0 < length states.now }
    ensures { result ≡ over_states_lem states.now row.now }
{
    let kids = row.kids();
    let mut own = [0u32; 8];
    for j in 0..kids.len() {
        own[j] = states[kids[j] as usize];
    }
    Row::new(row.sym(), &own[..kids.len()])
}

/// The candidate, with the row in place of its own where that comes first.
fn first_of(old: &Candidate, row: &Row) -> Candidate
    requires { AreAlike row.now old.now.row }
    ensures state { result.state ≡ old.now.state }
    ensures row { IsFirstOf old.now.row row.now result.row }
{
    match row_order(row, &old.row) {
        Ordering::Less => Candidate {
            state: old.state,
            row: *row,
        },
        Ordering::Equal => *old,
        Ordering::Greater => *old,
    }
}

impl Search {
    /// No candidates, and no state seen.
    pub fn new(alloc: Global, states: u32) -> Result<Search, AllocError>
        ensures marks { IfOk result (λ f. f.marks.items ≡ replicate states Unseen) }
        ensures candidates { IfOk result (λ f. f.candidates.items ≡ []) }
    {
        let mut marks = Vec::new(alloc);
        for _ in 0..states {
            marks.push(Mark::Unseen)?;
        }
        Ok(Search {
            marks,
            candidates: Vec::new(alloc),
        })
    }

    /// Keeps the row where it is the first that gives its state.
    pub fn weigh(&mut self, table: &Dta, states: &[u32], row: &Row) -> Result<(), AllocError>
        requires found { AreFound (listed_table table.now) states.now self.old.marks.items
            self.old.candidates.items }
        requires candidate { let t = listed_table table.now in
            IsCandidate t states.now (t.target (over_states_lem states.now row.now)) row.now }
        ensures found { OnOk result (AreFound (listed_table table.now) states.now
            self.new.marks.items self.new.candidates.items) }
        ensures weighed { OnOk result (IsWeighed (listed_table table.now) states.now
            self.new.candidates.items row.now) }
        ensures kept { OnOk result ((q : ℕ) (x : Entry) → Leads self.old.candidates.items q x
            → Leads self.new.candidates.items q x) }
    {
        // its clause says that the table is lawful
        let _states = table.states();
        let own = over_states(states, row);
        let state = table.target(&own.sym(), own.kids());
        match self.marks[state as usize] {
            Mark::Known => Ok(()),
            Mark::Found(place) => {
                self.candidates[place] = first_of(&self.candidates[place], row);
                Ok(())
            }
            Mark::Unseen => {
                self.add(state, row)?;
                Ok(())
            }
        }
    }

    /// One more candidate.
    fn add(&mut self, state: u32, row: &Row) -> Result<(), AllocError>
        requires { state < length self.old.marks.items }
        ensures candidates { OnOk result (self.new.candidates.items ≡ self.old.candidates.items
            ++ record { state = state; row = row.now } ∷ []) }
        ensures marks { OnOk result (self.new.marks.items ≡ slice_set self.old.marks.items state
            (HasPlace (length self.old.candidates.items))) }
    {
        let place = self.candidates.len();
        self.candidates.push(Candidate { state, row: *row })?;
        self.marks[state as usize] = Mark::Found(place);
        Ok(())
    }

    /// The candidates in the order of their rows.
    pub fn sort(&mut self)
        ensures marks { self.new.marks.items ≡ self.old.marks.items }
        ensures same { IsPermutation self.old.candidates.items self.new.candidates.items }
        ensures sorted { IsSortedBy row_less self.new.candidates.items }
    {
        self.candidates
            .sort_unstable_by(|a, b| row_order(&a.row, &b.row));
    }

    /// The candidates are nodes now.
    pub fn settle(&mut self)
        requires { (k : ℕ) → k < length self.old.candidates.items
            → slice_index_or (states_of self.old.candidates.items) k 0
            < length self.old.marks.items }
        ensures marks { AreKnownNow (states_of self.old.candidates.items) self.old.marks.items
            self.new.marks.items }
        ensures empty { self.new.candidates.items ≡ [] }
    {
        for k in 0..self.candidates.len() {
            let state = self.candidates[k].state;
            self.marks[state as usize] = Mark::Known;
        }
        self.candidates.clear();
    }
}
