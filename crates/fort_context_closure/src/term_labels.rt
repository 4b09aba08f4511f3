//! The labels of "the variable is this term".
ghost use Rattle.std.specs.Prelude.{◌≡◌, ◌<◌, ◌↔◌, ℕ, None, length, slice_index_or, IfOk, IsTrue};
ghost use Rattle.fort_theory.specs.Signatures as theory;
ghost use Rattle.fort_tables.specs.Labels.{IsOverLabels};
ghost use Rattle.fort_tables.specs.LabelRules.{label_of, entry_label};
ghost use Rattle.fort_alike.specs.Subterms.{subterms};
ghost use Rattle.fort_alike.specs.TermRule.{term_rule, term_accepts, number_word as number_word_lem};
ghost use Rattle.fort_context_closure.specs.TermNodes.{IsNode, IsNumberOver, IsNodeNumber, numbers_told};

use crate::nodes::{Subterm, nodes_of};
use fort_labels::Rows;
use fort_terms::{Sym, Term};
use fort_tuple_symbols::Row;
use std::alloc::{AllocError, Global};
use std::marker::Model;

/// The labels of one column about which an atom says that it is a given term. It is seen as the term. A label is the presence and the
/// number of the subterm that stands in the column, or 0: subterms are numbered from 1 by their first places, a term before those of
/// its children.
#[derive(Drop)]
pub struct TermLabels {
    term: Term,
    /// The different subterms.
    nodes: Vec<Subterm>,
}

impl Model for TermLabels {
    ghost use Rattle.fort_theory.specs.Trees.{Tree};

    ghost Value = { Tree };

    ghost use Rattle.fort_theory.specs.TreeCode.{tree_code};

    ghost coded = { tree_code };

    ghost view = { λ l. l.term };

    ghost use Rattle.fort_context_closure.specs.TermListing.{IsListing};

    ghost invariant = { IsListing };
}

impl TermLabels {
    pub fn new(alloc: Global, term: &Term) -> Result<TermLabels, AllocError>
        ensures { IfOk result (λ l. l ≡ term.now) }
    {
        Ok(TermLabels {
            term: term.copy(alloc)?,
            nodes: nodes_of(alloc, term)?,
        })
    }

    pub fn term(&self) -> &Term
        ensures { result.now ≡ self.now }
    {
        &self.term
    }

    /// The label of an entry over states with these labels.
    pub fn step(&self, row: &Row, rows: &Rows, out: &mut [u64])
        requires over { (sig : theory.Signature) × IsOverLabels sig 1
            (label_of (term_rule sig (subterms self.now))) rows.now.labels row.now }
        requires room { length out.old ≡ 2 }
        ensures { (sig : theory.Signature) → out.new ≡ entry_label
            (term_rule sig (subterms self.now)) rows.now.labels row.now }
    {
        out[0] = row.presence() as u64;
        out[1] = number(&self.nodes, row, rows);
    }

    /// Whether the label is that of the term itself, which stands at the first place.
    pub fn accepts(&self, label: &[u64]) -> bool
        ensures { result ≡ term_accepts (subterms self.now) self.now label.now }
    {
        number_word(label) == 1
    }
}

/// The number of the subterm with this symbol over the numbers of the row's children, or 0.
fn number_over(nodes: &[Subterm], sym: Sym, row: &Row, rows: &Rows) -> u64
    requires within { (j : ℕ) → j < length row.now.kids
        → slice_index_or row.now.kids j 0 < length rows.now.labels }
    ensures { IsNumberOver nodes.now sym.0 (numbers_told rows.now.labels row.now.kids) result }
{
    for node in nodes {
        if is_node(node, sym, row, rows) {
            return node.number;
        }
    }
    0
}

/// The number of the subterm that the row makes of its children, or 0.
fn number(nodes: &[Subterm], row: &Row, rows: &Rows) -> u64
    requires columns { length row.now.symbol ≡ 1 }
    requires within { (j : ℕ) → j < length row.now.kids
        → slice_index_or row.now.kids j 0 < length rows.now.labels }
    ensures { IsNodeNumber nodes.now (slice_index_or row.now.symbol 0 None)
        (numbers_told rows.now.labels row.now.kids) result }
{
    match row.sym().symbol(0) {
        Some(sym) => number_over(nodes, sym, row, rows),
        None => 0,
    }
}

/// Whether it is the node of this symbol over the numbers of the row's children.
fn is_node(node: &Subterm, sym: Sym, row: &Row, rows: &Rows) -> bool
    requires within { (j : ℕ) → j < length row.now.kids
        → slice_index_or row.now.kids j 0 < length rows.now.labels }
    ensures { IsTrue result
        ↔ IsNode sym.0 (numbers_told rows.now.labels row.now.kids) node.now }
{
    node.sym == sym && has_kids(node, row, rows)
}

/// Whether the row's children have the numbers of the node's.
fn has_kids(node: &Subterm, row: &Row, rows: &Rows) -> bool
    requires within { (j : ℕ) → j < length row.now.kids
        → slice_index_or row.now.kids j 0 < length rows.now.labels }
    ensures { IsTrue result ↔ (node.now.kids ≡ numbers_told rows.now.labels row.now.kids) }
{
    let kids = row.kids();
    if node.kids.len() != kids.len() {
        return false;
    }
    for j in 0..kids.len() {
        if number_word(rows.label(kids[j])) != node.kids[j] {
            return false;
        }
    }
    true
}

/// The second word of a label.
fn number_word(label: &[u64]) -> u64
    ensures { result ≡ number_word_lem label.now }
{
    label.get(1).copied().unwrap_or(0)
}
