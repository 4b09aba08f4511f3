//! The nodes of a certificate as optional tuples that share their children.
ghost use Rattle.std.specs.Prelude.{◌≡◌, ℕ, ◌≤◌, length, map, IfOk};
ghost use Rattle.fort_theory.specs.Signatures as theory;
ghost use Rattle.fort_tables.specs.Entries.{AreNodes};
ghost use Rattle.fort_steps.specs.OpenView.{as_node};
ghost use Rattle.fort_open_checker.specs.NodeTests.{IsRowOver};

use crate::entry::tuple_symbol;
use fort_steps::Node;
use fort_table::Dag;
use fort_tuple_symbols::Row;
use std::alloc::{AllocError, Global};

/// A node as an entry.
fn row_of(node: &Node) -> Row
    requires { (sig : theory.Signature) × IsRowOver sig (as_node node.now) }
    ensures { result ≡ as_node node.now }
{
    Row::new(tuple_symbol(&node.syms), &node.kids)
}

/// The same nodes as a list of tuples.
pub fn nodes_dag(alloc: Global, nodes: &[Node]) -> Result<Dag, AllocError>
    requires { (sig : theory.Signature) × (columns : ℕ) × theory.IsSignature sig
        × (columns ≤ theory.most_columns) × AreNodes sig columns (map as_node nodes.now) }
    ensures { IfOk result (λ dag. dag ≡ map as_node nodes.now) }
{
    let mut dag = Dag::new(alloc);
    for node in nodes {
        dag.push(row_of(node))?;
    }
    Ok(dag)
}
