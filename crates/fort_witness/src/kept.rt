//! The nodes that the search for solutions keeps.
ghost use Rattle.std.specs.Prelude.{◌≡◌, ℕ, List, ◌∷◌, ◌++◌, ◌<◌, ◌^◌, if◌then◌else◌, [], length, IfOk, OnOk};
ghost use Rattle.fort_theory.specs.Signatures as theory;
ghost use Rattle.fort_tables.specs.Entries.{AreNodes};
ghost use Rattle.fort_witness.specs.Choices.{AreListed, HasOneMore, lists_of};

use crate::answer::Solutions;
use crate::head::Head;
use crate::node_lists::NodeLists;
use fort_table::Dag;
use std::alloc::{AllocError, Global};

/// The nodes so far, in the order of their tuples, with their states; those that are accepted.
#[derive(Drop)]
pub struct Kept {
    pub dag: Dag,
    pub states: Vec<u32>,
    pub lists: NodeLists,
    pub accepted: Vec<u32>,
}

impl Kept {
    /// No nodes.
    pub fn new(alloc: Global, states: u32) -> Result<Kept, AllocError>
        ensures dag { IfOk result (λ f. f.dag ≡ []) }
        ensures states { IfOk result (λ f. f.states.items ≡ []) }
        ensures lists { IfOk result (λ f. AreListed states [] (lists_of f.lists)) }
        ensures accepted { IfOk result (λ f. f.accepted.items ≡ []) }
    {
        Ok(Kept {
            dag: Dag::new(alloc),
            states: Vec::new(alloc),
            lists: NodeLists::new(alloc, states)?,
            accepted: Vec::new(alloc),
        })
    }

    /// The accepted nodes.
    pub fn answer(self, more: bool) -> Solutions
        ensures dag { result.dag ≡ self.dag }
        ensures nodes { result.nodes.items ≡ self.accepted.items }
        ensures more { result.more ≡ more }
    {
        Solutions {
            dag: self.dag,
            nodes: self.accepted,
            more,
        }
    }

    /// One more node.
    pub fn push(&mut self, head: &Head, accepted: bool) -> Result<(), AllocError>
        requires few { length self.old.dag < 2 ^ 32 }
        requires nodes { (sig : theory.Signature) × (columns : ℕ) × AreNodes sig columns
            (self.old.dag ++ head.now.row ∷ []) }
        requires state { head.now.state < length (lists_of self.old.lists) }
        ensures dag { OnOk result (self.new.dag ≡ self.old.dag ++ head.now.row ∷ []) }
        ensures states { OnOk result (self.new.states.items ≡ self.old.states.items
            ++ head.now.state ∷ []) }
        ensures lists { OnOk result ((n : ℕ) (qs : List ℕ) → AreListed n qs (lists_of
            self.old.lists) → length self.old.dag ≡ length qs → AreListed n (qs
            ++ head.now.state ∷ []) (lists_of self.new.lists)) }
        ensures counts { OnOk result (HasOneMore head.now.state (lists_of self.old.lists) (lists_of
            self.new.lists)) }
        ensures accepted { OnOk result (self.new.accepted.items ≡ (if accepted then
            self.old.accepted.items ++ length self.old.dag ∷ [] else self.old.accepted.items)) }
    {
        let node = self.dag.len() as u32;
        if accepted {
            self.accepted.push(node)?;
        }
        self.dag.push(head.row)?;
        self.states.push(head.state)?;
        self.lists.push(head.state, node)
    }
}
