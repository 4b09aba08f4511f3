//! The states to which a term is taken.
ghost use Rattle.std.specs.Prelude.{◌≡◌, ◌↔◌, ℕ, IfOk, Contains, length, map, vec_items};
ghost use Rattle.fort_theory.specs.Trees.{Trees, Node};
ghost use Rattle.fort_reachability.specs.TreeAutomata.{Takes};
ghost use Rattle.fort_tree_automata.specs.NtaView.{NamesItsStates, automaton_of, moves_of};
ghost use Rattle.fort_tree_automata.specs.Marks.{AllMarkTaken, MarksTaken, marked_in_rows, with_node};

use crate::flags::{is_marked, mark_any, marked_set, settle};
use crate::nta::Nta;
use fort_terms::{Sym, Term};
use std::alloc::{AllocError, Global};
use std::collections::BTreeSet;

impl Nta {
    /// The states to which the term is taken.
    pub fn states_of(&self, alloc: Global, term: &Term) -> Result<BTreeSet<u32>, AllocError>
        requires { NamesItsStates self.now }
        ensures { IfOk result (λ found.
            (q : ℕ) → Contains found.keys q ↔ Takes (automaton_of self.now) term.now q) }
    {
        let flags = self.row(alloc, term)?;
        marked_set(alloc, &flags, self.states)
    }

    /// The states of a term, marked.
    fn row(&self, alloc: Global, term: &Term) -> Result<Vec<bool>, AllocError>
        requires { NamesItsStates self.now }
        ensures count { IfOk result (λ row. length row.items ≡ self.now.states) }
        ensures exact { IfOk result (λ row. MarksTaken self.now term.now row.items) }
    {
        let mut rows = Vec::new(alloc);
        for kid in &term.kids {
            rows.push(self.row(alloc, kid)?)?;
        }
        self.node_row(alloc, term.sym, &rows)
    }

    /// The states of a node, from those of its children.
    fn node_row(&self, alloc: Global, sym: Sym, rows: &[Vec<bool>]) -> Result<Vec<bool>, AllocError>
        requires { NamesItsStates self.now }
        ensures count { IfOk result (λ row. length row.items ≡ self.now.states) }
        ensures exact { IfOk result (λ row. (ts : Trees) →
            AllMarkTaken self.now ts (map vec_items rows.now) →
            MarksTaken self.now (Node sym.0 ts) row.items) }
    {
        let mut flags = vec![in alloc; false; self.states as usize]?;
        mark_any(&mut flags, self.any);
        self.mark_node(&mut flags, sym, rows);
        settle(&mut flags, &self.silent);
        Ok(flags)
    }

    /// Marks the targets of the moves of a node.
    fn mark_node(&self, flags: &mut Vec<bool>, sym: Sym, rows: &[Vec<bool>])
        ensures { flags.new.items ≡
            with_node sym.0 (map vec_items rows.now) (moves_of self.now) flags.old.items }
    {
        for step in &self.moves {
            if (step.target as usize) < flags.len()
                && step.sym == sym
                && marked_in_rows(rows, &step.kids)
            {
                flags[step.target as usize] = true;
            }
        }
    }
}

fn marked_in_rows(rows: &[Vec<bool>], states: &[u32]) -> bool
    ensures { result ≡ marked_in_rows (map vec_items rows.now) states.now }
{
    if rows.len() != states.len() {
        return false;
    }
    for i in 0..rows.len() {
        if !is_marked(&rows[i], states[i]) {
            return false;
        }
    }
    true
}
