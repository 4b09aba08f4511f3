//! The children of each state, by the entries with one column alone present.
ghost use Rattle.std.specs.Prelude.{◌≡◌, ◌<◌, ◌≤◌, ◌+◌, ◌-◌, ◌||◌, ℕ, Some, take, length, slice_index_or, [], OnOk, IfOk};
ghost use Rattle.std.specs.List.{insert};
ghost use Rattle.fort_tables.specs.Tuples.{symbol_kids, all_absent};
ghost use Rattle.fort_tables.specs.PureStates.{IsPureState};
ghost use Rattle.fort_tables.specs.PureSearch.{has_number, is_child_after, is_child_under};
ghost use Rattle.fort_infinity.specs.Children.{AreChildren, IsPureColumn, IsLone};

use crate::lists::StateLists;
use fort_table::Table;
use fort_terms::Sym;
use fort_tuple_symbols::TupleSym;
use std::alloc::{AllocError, Global};

/// The entries with one symbol, alone in its column.
#[derive(Drop)]
struct Alone<'a, T: Table> {
    body: &'a T,
    column: usize,
    /// The states with this column alone present.
    states: &'a [u32],
    sym: Sym,
    symbol: TupleSym,
}

impl<'a, T: Table> Alone<'a, T> {
    /// Notes the children of each choice of states beside the state that it gives: `j` children have theirs, and `rest` have not.
    fn visit(
        &self,
        chosen: [u32; 8],
        j: usize,
        rest: usize,
        children: &mut StateLists,
    ) -> Result<(), AllocError>
        requires pure { IsPureColumn (T.table self.now.body.now) self.now.column
            self.now.states.now }
        requires lone { IsLone (T.table self.now.body.now) self.now.column self.now.sym.0
            self.now.symbol }
        requires count { j + rest ≡ symbol_kids (T.table self.now.body.now).signature
            self.now.symbol }
        requires few { j + rest ≤ 8 }
        requires before { (i : ℕ) → i < j → IsPureState (T.table self.now.body.now)
            self.now.column (slice_index_or chosen i 0) }
        requires room { length children.old ≡ length (T.table self.now.body.now).presences }
        ensures count { length children.new ≡ length children.old }
        ensures noted { OnOk result ((q k : ℕ) → has_number k (slice_index_or children.new q [])
            ≡ (is_child_after (T.table self.now.body.now) self.now.column self.now.symbol
            (take j chosen) j rest q k || has_number k (slice_index_or children.old q []))) }
    {
        // its clause says that the table is lawful
        let _states = self.body.states();
        if rest == 0 {
            let state = self.body.target(&self.symbol, &chosen[..j]);
            return children.append(state, &chosen[..j]);
        }
        for k in self.states {
            let mut next = chosen;
            next[j] = *k;
            self.visit(next, j + 1, rest - 1, children)?;
        }
        Ok(())
    }
}

/// The symbol alone in its column.
fn lone_symbol(columns: usize, column: usize, sym: Sym) -> TupleSym
    requires column { column < columns }
    requires narrow { columns ≤ 16 }
    ensures { result ≡ insert (all_absent (columns - 1)) column (Some sym.0) }
{
    let absent = [None; 16];
    TupleSym::new(&absent[..columns - 1]).with_column(column, Some(sym))
}

/// Notes the children of the entries with this symbol.
fn note_under<T: Table>(
    body: &T,
    column: usize,
    states: &[u32],
    sym: Sym,
    children: &mut StateLists,
) -> Result<(), AllocError>
    requires pure { IsPureColumn (T.table body.now) column states.now }
    requires symbol { sym.0 < length (T.table body.now).signature }
    requires room { length children.old ≡ length (T.table body.now).presences }
    ensures count { length children.new ≡ length children.old }
    ensures noted { OnOk result ((q k : ℕ) → has_number k (slice_index_or children.new q [])
        ≡ (is_child_under (T.table body.now) column q k sym.0
        || has_number k (slice_index_or children.old q []))) }
{
    // its clause says that the table is lawful
    let _states = body.states();
    let sig = body.signature();
    // its clause says that the signature is lawful
    let _symbols = sig.len();
    let arity = sig.arity(sym) as usize;
    let alone = Alone {
        body,
        column,
        states,
        sym,
        symbol: lone_symbol(body.columns(), column, sym),
    };
    alone.visit([0; 8], 0, arity, children)
}

/// For each state its children: those of the entries with this column alone present that give it. `states` are the pure ones.
pub(crate) fn pure_children<T: Table>(
    alloc: Global,
    body: &T,
    column: usize,
    states: &[u32],
) -> Result<StateLists, AllocError>
    requires { IsPureColumn (T.table body.now) column states.now }
    ensures { IfOk result (AreChildren (T.table body.now) column) }
{
    let mut children = StateLists::new(alloc, body.states())?;
    for g in 0..body.signature().len() {
        note_under(body, column, states, Sym(g as u16), &mut children)?;
    }
    Ok(children)
}
