//! Lists of optional tuples that share their children.
ghost use Rattle.std.specs.Prelude.{◌≡◌, ℕ, ◌<◌, [], ◌∷◌, ◌++◌, length, Some, slice_get, OnOk, OnErr};
ghost use Rattle.fort_theory.specs.Signatures as theory;
ghost use Rattle.fort_tables.specs.Tuples.{rebuilt};
ghost use Rattle.fort_tables.specs.Entries.{AreNodes, picked, tuples_of};

use crate::entry_list::EntryList;
use fort_tuple_symbols::Row;
use std::alloc::{AllocError, Global};
use std::marker::Model;

/// A list of optional tuples, each a tuple symbol over earlier ones.
#[derive(Drop)]
pub struct Dag {
    nodes: EntryList,
}

impl Model for Dag {
    ghost use Rattle.std.specs.Prelude.{List};
    ghost use Rattle.fort_tables.specs.Entries.{Entry};

    ghost Value = { List Entry };

    ghost use Rattle.fort_table.specs.EntryListFacts.{entries_in, AreSpans};

    ghost view = { λ d. entries_in d.nodes.numbers.items d.nodes.spans.items };

    ghost invariant = { λ d. AreSpans d.nodes.numbers.items d.nodes.spans.items };
}

impl Dag {
    pub fn new(alloc: Global) -> Dag
        ensures { result ≡ [] }
    {
        Dag {
            nodes: EntryList::new(alloc),
        }
    }

    /// Appends the tuple of a tuple symbol and of earlier nodes.
    pub fn push(&mut self, row: Row) -> Result<(), AllocError>
        requires { (sig : theory.Signature) × (columns : ℕ) × AreNodes sig columns (self.old ++
            row ∷ []) }
        ensures ok { OnOk result (self.new ≡ self.old ++ row ∷ []) }
        ensures tuples { OnOk result (tuples_of self.new ≡ tuples_of self.old ++ rebuilt
            row.symbol (picked (tuples_of self.old) row.kids) ∷ []) }
        ensures err { OnErr result (self.new ≡ self.old) }
    {
        self.nodes.make_room()?;
        self.nodes.push(&row);
        Ok(())
    }

    /// The tuple symbol of a node, with the numbers of its children.
    pub fn node(&self, node: u32) -> Row
        requires { node < length self.now }
        ensures { slice_get self.now node ≡ Some result }
    {
        self.nodes.get(node as usize)
    }

    pub fn len(&self) -> usize
        ensures { result ≡ length self.now }
    {
        self.nodes.spans.len()
    }
}
