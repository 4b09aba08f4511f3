//! Nodes with the states that a table gives them.
ghost use Rattle.std.specs.Prelude.{◌≡◌, ℕ, ◌+◌, ◌<◌, ◌≤◌, ◌++◌, ◌∷◌, [], List, length, slice_index_or, IfOk, true, false};
ghost use Rattle.fort_tables.specs.Entries.{Entry, entry};
ghost use Rattle.fort_tables.specs.Tables.{IsTableEntry};
ghost use Rattle.fort_steps.specs.OpenView.{as_node};
ghost use Rattle.fort_open_checker.specs.NodeStates.{AreNodeStates, IsNodeEntry, states_at, HasNodeRoom};

use crate::entry::entry_symbol;
use fort_steps::Node;
use fort_table::Table;
use fort_tuple_symbols::TupleSym;
use std::alloc::{AllocError, Global};

/// For each node so far its presence and its state.
#[derive(Drop)]
pub(crate) struct NodeRoom {
    pub presences: Vec<u16>,
    pub states: Vec<u32>,
}

/// The state of a tuple symbol over the states of these nodes.
fn state_over<T: Table>(table: &T, symbol: &TupleSym, states: &[u32], kids: &[u32]) -> u32
    requires few { length kids.now ≤ 8 }
    requires within { (j : ℕ) → j < length kids.now
        → slice_index_or kids.now j 0 < length states.now }
    requires entry { IsTableEntry (T.table table.now)
        (entry symbol.now (states_at states.now kids.now)) }
    ensures { result ≡ (T.table table.now).target
        (entry symbol.now (states_at states.now kids.now)) }
{
    let mut own = [0u32; 8];
    for j in 0..kids.len() {
        own[j] = states[kids[j] as usize];
    }
    table.target(symbol, &own[..kids.len()])
}

impl NodeRoom {
    /// For so many nodes.
    pub(crate) fn new(alloc: Global, nodes: usize) -> Result<NodeRoom, AllocError>
        ensures { IfOk result (HasNodeRoom nodes) }
    {
        Ok(NodeRoom {
            presences: Vec::with_capacity(alloc, nodes)?,
            states: Vec::with_capacity(alloc, nodes)?,
        })
    }

    /// No nodes so far.
    pub(crate) fn clear(&mut self)
        ensures presences { self.new.presences.items ≡ [] }
        ensures states { self.new.states.items ≡ [] }
        ensures room { (n : ℕ) → HasNodeRoom n self.old → HasNodeRoom n self.new }
    {
        self.presences.clear();
        self.states.clear();
    }

    /// One more node, where it is an entry over those so far.
    pub(crate) fn take<T: Table>(&mut self, table: &T, node: &Node) -> bool
        requires room { HasNodeRoom (length self.old.states.items + 1) self.old }
        requires states { (nodes : List Entry) × AreNodeStates (T.table table.now) nodes
            self.old.presences.items self.old.states.items }
        ensures taken { result ≡ true → (nodes : List Entry)
            → AreNodeStates (T.table table.now) nodes self.old.presences.items
            self.old.states.items → AreNodeStates (T.table table.now)
            (nodes ++ as_node node.now ∷ []) self.new.presences.items self.new.states.items }
        ensures refused { result ≡ false → IsNodeEntry (T.table table.now)
            self.old.presences.items (as_node node.now) → ⊥ }
        ensures room { (n : ℕ) → HasNodeRoom n self.old → HasNodeRoom n self.new }
    {
        let symbol = entry_symbol(table.signature(), table.columns(), &self.presences, node);
        match symbol {
            Some(symbol) => {
                let state = state_over(table, &symbol, &self.states, &node.kids);
                self.presences.push_reserved(table.presence(state));
                self.states.push_reserved(state);
                true
            }
            None => false,
        }
    }
}
