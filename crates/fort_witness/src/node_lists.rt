//! The nodes of each state.
ghost use Rattle.std.specs.Prelude.{◌≡◌, ℕ, List, ◌<◌, ◌++◌, ◌∷◌, [], length, OnOk, IfOk};
ghost use Rattle.fort_witness.specs.Choices.{AreListed, HasOneMore, lists_of, numbers_from, IsFirstAt};

use std::alloc::{AllocError, Global};

/// For each state the numbers of its nodes, ascending.
#[derive(Drop)]
pub struct NodeLists {
    pub lists: Vec<Vec<u32>>,
}

impl NodeLists {
    /// No nodes.
    pub fn new(alloc: Global, states: u32) -> Result<NodeLists, AllocError>
        ensures { IfOk result (λ r. AreListed states [] (lists_of r)) }
    {
        let mut lists = Vec::new(alloc);
        for _ in 0..states {
            lists.push(Vec::new(alloc))?;
        }
        Ok(NodeLists { lists })
    }

    /// One more node, with this state.
    pub fn push(&mut self, state: u32, node: u32) -> Result<(), AllocError>
        requires { state < length (lists_of self.old) }
        ensures counts { OnOk result (HasOneMore state (lists_of self.old) (lists_of self.new)) }
        ensures listed { OnOk result ((n : ℕ) (qs : List ℕ)
            → AreListed n qs (lists_of self.old) → node ≡ length qs
            → AreListed n (qs ++ state ∷ []) (lists_of self.new)) }
    {
        self.lists[state as usize].push(node)?;
        Ok(())
    }

    /// How many nodes have the state.
    pub fn count(&self, state: u32) -> usize
        requires { state < length (lists_of self.now) }
        ensures { result ≡ length (numbers_from (lists_of self.now) state) }
    {
        self.lists[state as usize].len()
    }

    /// The first node of the state among those from start on and below end.
    pub fn first_from(&self, state: u32, start: u32, end: u32) -> Option<u32>
        requires { state < length (lists_of self.now) }
        ensures { (n : ℕ) (qs : List ℕ) → AreListed n qs (lists_of self.now) → IsFirstAt qs state
            start end result }
    {
        let list = self.lists[state as usize].as_slice();
        let place = list.partition_point(|node| *node < start);
        match list.get(place) {
            Some(node) => { if *node < end { Some(*node) } else { None } }
            None => None,
        }
    }
}
