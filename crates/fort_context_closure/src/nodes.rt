//! The subterms of a term, and each of them as a node over the others.
ghost use Rattle.std.specs.Prelude.{◌≡◌, ◌++◌, List, map, IfOk, OnOk};
ghost use Rattle.fort_theory.specs.Trees.{Tree};
ghost use Rattle.fort_alike.specs.TermRule.{number_in};
ghost use Rattle.fort_context_closure.specs.TermNodes.{AreNumbersIn, AreNodesOf, node_for};
ghost use Rattle.fort_alike.specs.Subterms.{subterms};

use fort_terms::{Sym, Term};
use indexmap::IndexMap;
use std::alloc::{AllocError, Global};
use std::marker::Model;

/// A subterm: its number, its symbol, and the numbers of its children. A subterm's number is one more than its first place.
#[derive(Drop)]
pub(crate) struct Subterm {
    pub number: u64,
    pub sym: Sym,
    pub kids: Vec<u64>,
}

impl Model for Subterm {
    ghost use Rattle.fort_context_closure.specs.TermNodes.{TermNode};

    ghost Value = { TermNode };

    ghost view = { λ n. record { number = n.number; symbol = n.sym.0; kids = n.kids.items } };
}

/// Lists the subterms of a term, each as often as it stands there, a term before those of its children.
fn push_subterms<'a>(term: &'a Term, listed: &mut Vec<&'a Term>) -> Result<(), AllocError>
    ensures { OnOk result (map (λ t. t.now) listed.new.items
        ≡ map (λ t. t.now) listed.old.items ++ subterms term.now) }
{
    listed.push(term)?;
    for kid in &term.kids {
        push_subterms(kid, listed)?;
    }
    Ok(())
}

/// The number of a term, or 0 where it has none.
fn number_of(term: &Term, numbers: &IndexMap<Term, u64>) -> u64
    ensures { (listed : List Tree) → AreNumbersIn listed numbers.now.entries
        → result ≡ number_in listed term.now }
{
    numbers.get(term).copied().unwrap_or(0)
}

/// The numbers of the terms of a list.
fn numbers_in(alloc: Global, listed: &[&Term]) -> Result<IndexMap<Term, u64>, AllocError>
    ensures { IfOk result (λ numbers. AreNumbersIn (map (λ t. t.now) listed.now)
        numbers.entries) }
{
    let mut numbers = IndexMap::new(alloc);
    for (place, term) in listed.iter().enumerate() {
        if number_of(term, &numbers) == 0 {
            numbers.insert(term.copy(alloc)?, place as u64 + 1)?;
        }
    }
    Ok(numbers)
}

fn node_of(alloc: Global, term: &Term, numbers: &IndexMap<Term, u64>) -> Result<Subterm, AllocError>
    ensures { IfOk result (λ node. (listed : List Tree) → AreNumbersIn listed numbers.now.entries
        → node ≡ node_for listed term.now) }
{
    let mut kids = Vec::new(alloc);
    for kid in &term.kids {
        kids.push(number_of(kid, numbers))?;
    }
    Ok(Subterm {
        number: number_of(term, numbers),
        sym: term.sym,
        kids,
    })
}

/// The terms of a list as nodes, each at its first place alone.
fn first_nodes(
    alloc: Global,
    listed: &[&Term],
    numbers: &IndexMap<Term, u64>,
) -> Result<Vec<Subterm>, AllocError>
    requires { AreNumbersIn (map (λ t. t.now) listed.now) numbers.now.entries }
    ensures { IfOk result (λ nodes. AreNodesOf (map (λ t. t.now) listed.now) nodes.items) }
{
    let mut nodes = Vec::with_capacity(alloc, numbers.len())?;
    for (place, term) in listed.iter().enumerate() {
        if number_of(term, numbers) == place as u64 + 1 {
            nodes.push(node_of(alloc, term, numbers)?)?;
        }
    }
    Ok(nodes)
}

/// The subterms of a term as nodes, each once.
pub(crate) fn nodes_of(alloc: Global, term: &Term) -> Result<Vec<Subterm>, AllocError>
    ensures { IfOk result (λ nodes. AreNodesOf (subterms term.now) nodes.items) }
{
    let mut listed = Vec::new(alloc);
    push_subterms(term, &mut listed)?;
    let numbers = numbers_in(alloc, &listed)?;
    first_nodes(alloc, &listed, &numbers)
}
