//! The nodes that the last one needs.
ghost use Rattle.std.specs.Prelude.{◌≡◌, ℕ, List, [], ◌∷◌, ◌++◌, ◌<◌, ◌≤◌, ◌^◌, length, replicate, IfOk, OnOk};
ghost use Rattle.fort_theory.specs.Signatures as theory;
ghost use Rattle.fort_tables.specs.Entries.{AreNodes};
ghost use Rattle.fort_tables.specs.TupleNodes.{AreNodesOf};
ghost use Rattle.fort_witness.specs.declared.needed.Visit.TheVariants.{Itself as itself_at};
ghost use Rattle.fort_witness.specs.Answers.{last_tuple, AreApart};
ghost use Rattle.fort_witness.specs.Visiting.{untaken, wholes_of, work_ahead, IsVisiting};

use crate::found::over_states;
use fort_table::Dag;
use std::alloc::{AllocError, Global};

/// In place of the number of a node that wasn't taken.
const UNTAKEN: u32 = u32::MAX;

/// What is still to be visited.
#[derive(Clone, Copy)]
pub enum Visit {
    /// A node, behind all that it needs.
    Whole(u32),
    /// A node whose children were visited.
    Itself(u32),
}

/// The nodes taken, and for each node there is its number among them.
#[derive(Drop)]
pub struct Taken {
    pub dag: Dag,
    pub numbers: Vec<u32>,
}

impl Taken {
    /// None, out of so many.
    fn new(alloc: Global, count: usize) -> Result<Taken, AllocError>
        ensures dag { IfOk result (λ r. r.dag ≡ []) }
        ensures numbers { IfOk result (λ r. r.numbers.items ≡ replicate count untaken) }
    {
        let mut numbers = Vec::new(alloc);
        for _ in 0..count {
            numbers.push(UNTAKEN)?;
        }
        Ok(Taken {
            dag: Dag::new(alloc),
            numbers,
        })
    }

    /// Takes a node, unless it was taken before.
    fn take(&mut self, dag: &Dag, node: u32) -> Result<(), AllocError>
        requires nodes { (sig : theory.Signature) × (columns : ℕ) × AreNodes sig columns dag.now }
        requires apart { AreApart dag.now }
        requires few { length dag.now < 2 ^ 32 }
        requires visiting { (rest : List Visit) × IsVisiting dag.now self.old
            (rest ++ itself_at node ∷ []) }
        ensures { (rest : List Visit) → IsVisiting dag.now self.old (rest ++ itself_at node ∷ [])
            → OnOk result (IsVisiting dag.now self.new rest) }
    {
        if self.numbers[node as usize] != UNTAKEN {
            return Ok(());
        }
        let row = over_states(self.numbers.as_slice(), &dag.node(node));
        let number = self.dag.len() as u32;
        self.dag.push(row)?;
        self.numbers[node as usize] = number;
        Ok(())
    }
}

/// Visits to these nodes, the first one on top.
fn push_wholes(nodes: &[u32], visits: &mut Vec<Visit>) -> Result<(), AllocError>
    ensures { OnOk result (visits.new.items ≡ visits.old.items ++ wholes_of nodes.now) }
{
    for j in 0..nodes.len() {
        visits.push(Visit::Whole(nodes[nodes.len() - 1 - j]))?;
    }
    Ok(())
}

/// Takes a node, or leaves it to be visited behind its children.
fn make(
    dag: &Dag,
    visit: Visit,
    taken: &mut Taken,
    visits: &mut Vec<Visit>,
) -> Result<(), AllocError>
    requires nodes { (sig : theory.Signature) × (columns : ℕ) × AreNodes sig columns dag.now }
    requires apart { AreApart dag.now }
    requires few { length dag.now < 2 ^ 32 }
    requires visiting { IsVisiting dag.now taken.old (visits.old.items ++ visit ∷ []) }
    ensures visiting { OnOk result (IsVisiting dag.now taken.new visits.new.items) }
    ensures smaller { OnOk result (work_ahead dag.now visits.new.items
        < work_ahead dag.now (visits.old.items ++ visit ∷ [])) }
{
    match visit {
        Visit::Itself(node) => {
            taken.take(dag, node)?;
            Ok(())
        }
        Visit::Whole(node) => {
            if taken.numbers[node as usize] != UNTAKEN {
                return Ok(());
            }
            let row = dag.node(node);
            visits.push(Visit::Itself(node))?;
            push_wholes(row.kids(), visits)?;
            Ok(())
        }
    }
}

/// The nodes that the last one needs, in the order of their first places in its tuple.
pub fn needed_nodes(alloc: Global, dag: &Dag) -> Result<Dag, AllocError>
    requires nodes { (sig : theory.Signature) × (columns : ℕ) × AreNodes sig columns dag.now }
    requires some { 0 < length dag.now }
    requires few { length dag.now < 2 ^ 32 }
    requires apart { AreApart dag.now }
    ensures nodes { IfOk result (λ nodes. (sig : theory.Signature) (columns : ℕ)
        → AreNodes sig columns dag.now
        → AreNodesOf sig columns (last_tuple dag.now) nodes) }
    ensures few { IfOk result (λ nodes. length nodes ≤ length dag.now) }
{
    let mut taken = Taken::new(alloc, dag.len())?;
    let mut visits = Vec::new(alloc);
    visits.push(Visit::Whole(dag.len() as u32 - 1))?;
    'visits: while let Some(visit) = visits.pop() {
        make(dag, visit, &mut taken, &mut visits)?;
    }
    Ok(taken.dag)
}
