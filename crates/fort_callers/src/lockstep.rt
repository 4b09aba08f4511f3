//! The states that a table gives the tuples of a dag.
ghost use Rattle.std.specs.Prelude.{◌≡◌, ◌<◌, ◌^◌, ℕ, length, map, slice_index_or, IfOk};
ghost use Rattle.fort_tables.specs.Entries.{AreNodes, tuples_of};
ghost use Rattle.fort_tables.specs.Tables.{IsTableEntry, listed_table, state_of};
ghost use Rattle.fort_callers.specs.NodeStates.{over_states};

use fort_lockstep::Dta;
use fort_table::{Dag, Table};
use fort_tuple_symbols::Row;
use std::alloc::{AllocError, Global};

/// The state of a node's tuple, where the nodes before it have these states.
fn state_over(alloc: Global, table: &Dta, node: &Row, states: &[u32]) -> Result<u32, AllocError>
    requires before { (j : ℕ) → j < length node.now.kids
        → slice_index_or node.now.kids j 0 < length states.now }
    requires entry { IsTableEntry (listed_table table.now) (over_states states.now node.now) }
    ensures { IfOk result (λ q. q
        ≡ (listed_table table.now).target (over_states states.now node.now)) }
{
    let mut own = Vec::new(alloc);
    for kid in node.kids() {
        own.push(states[*kid as usize])?;
    }
    Ok(table.target(&node.sym(), &own))
}

/// The state of each tuple of a dag.
pub fn states_of(alloc: Global, table: &Dta, dag: &Dag) -> Result<Vec<u32>, AllocError>
    requires nodes { AreNodes table.now.signature table.now.columns dag.now }
    requires few { length dag.now < 2 ^ 32 }
    ensures { IfOk result (λ states. states.items
        ≡ map (state_of (listed_table table.now)) (tuples_of dag.now)) }
{
    // its clause says that the table is lawful
    let _states = table.states();
    let mut states = Vec::new(alloc);
    for k in 0..dag.len() {
        let state = state_over(alloc, table, &dag.node(k as u32), &states)?;
        states.push(state)?;
    }
    Ok(states)
}
