//! The targets under one tuple symbol, found in a table's list.
ghost use Rattle.std.specs.Prelude.{◌≡◌, ℕ, ◌<◌, ◌-◌, length, slice_index, Some, None, IfSome};
ghost use Rattle.std.specs.List.{insert};
ghost use Rattle.fort_tables.specs.Tuples.{TupleSymbol, IsTupleSymbol};
ghost use Rattle.fort_tables.specs.Entries.{Entry, entry};
ghost use Rattle.fort_tables.specs.Tables as tables;
ghost use Rattle.fort_target_lists.specs.TargetLists.{IsTargetListOf};
ghost use Rattle.fort_target_lists.specs.LookUps.{FindsUnder, FindsAbove};
ghost use Rattle.fort_target_lists.specs.Places.{number_of};
ghost use Rattle.fort_target_lists.specs.Flats.{IsFlatOf, base_of};

use crate::flat::FlatTargets;
use crate::numbers::number_with_absent;
use crate::target_list::TargetList;
use fort_table::Table;
use fort_terms::Sym;
use fort_tuple_symbols::Row;

/// The targets under one tuple symbol.
#[derive(Drop)]
pub struct LookUp<'a> {
    pub list: &'a TargetList,
    /// The tuple symbol's number.
    pub number: usize,
    /// Where they start in the list of all targets, where it is made.
    pub start: usize,
}

/// The targets under tuple symbols with one more column.
#[derive(Drop)]
pub struct Finder<'a> {
    pub list: &'a TargetList,
    /// The tuple symbol's number with the column absent.
    pub number: usize,
    /// What each next symbol there adds to it.
    pub step: usize,
}

impl<'a> LookUp<'a> {
    /// The target over these child states.
    pub fn target(&self, states: &[u32]) -> u32
        requires { (body : tables.Table) × (f : TupleSymbol) × FindsUnder body f self.now
            × tables.IsTableEntry body (entry f states.now) }
        ensures { (body : tables.Table) (f : TupleSymbol) → FindsUnder body f self.now
            → tables.IsTableEntry body (entry f states.now)
            → result ≡ body.target (entry f states.now) }
    {
        match self.list.by_classes() {
            Some(list) => list.target(self.number, states),
            None => self.list.list.target(self.start, states),
        }
    }

    /// The list of all targets, where it is made: there they start.
    pub fn flat(&self) -> Option<&'a FlatTargets>
        ensures { (body : tables.Table) (f : TupleSymbol) → FindsUnder body f self.now
            → IfSome result (λ l. IsFlatOf body l.now × (self.now.start
            ≡ slice_index l.now.listing.starts.items (number_of l.now.base f))) }
    {
        self.list.flat()
    }
}

impl TargetList {
    /// The targets under the tuple symbol of this number.
    pub(crate) fn look_up(&self, number: usize) -> LookUp<'_>
        requires { (body : tables.Table) × (f : TupleSymbol) × IsTargetListOf body self.now
            × IsTupleSymbol body.signature body.columns f × (number ≡ number_of (base_of body) f) }
        ensures { (body : tables.Table) (f : TupleSymbol) → IsTargetListOf body self.now
            → number ≡ number_of (base_of body) f → FindsUnder body f result }
    {
        let start = if self.is_made {
            self.list.start(number)
        } else {
            0
        };
        LookUp {
            list: self,
            number,
            start,
        }
    }
}

impl<'a> Finder<'a> {
    /// In the list of a table that has an entry.
    pub fn of<T: Table>(body: &T, list: &'a TargetList, row: &Row, column: usize) -> Finder<'a>
        requires list { IsTargetListOf (T.table body.now) list.now }
        requires some { (e : Entry) × tables.IsTableEntry (T.table body.now) e }
        requires column { column < (T.table body.now).columns }
        requires symbol { IsTupleSymbol (T.table body.now).signature
            ((T.table body.now).columns - 1) row.now.symbol }
        ensures { FindsAbove (T.table body.now) row.now.symbol column result }
    {
        let base = body.signature().len() + 1;
        let later = body.columns() - 1 - column;
        Finder {
            list,
            number: number_with_absent(&row.sym(), column, base),
            step: base.pow(later as u32),
        }
    }

    /// The targets with the column absent.
    pub fn absent(&self) -> LookUp<'a>
        requires { (body : tables.Table) × (f : TupleSymbol) × (column : ℕ)
            × FindsAbove body f column self.now }
        ensures { (body : tables.Table) (f : TupleSymbol) (column : ℕ)
            → FindsAbove body f column self.now
            → FindsUnder body (insert f column None) result }
    {
        self.list.look_up(self.number)
    }

    /// The targets with this symbol in the column.
    pub fn under(&self, symbol: Sym) -> LookUp<'a>
        requires { (body : tables.Table) × (f : TupleSymbol) × (column : ℕ)
            × FindsAbove body f column self.now × (symbol.0 < length body.signature) }
        ensures { (body : tables.Table) (f : TupleSymbol) (column : ℕ)
            → FindsAbove body f column self.now → symbol.0 < length body.signature
            → FindsUnder body (insert f column (Some symbol.0)) result }
    {
        let place = self.number + (symbol.0 as usize + 1) * self.step;
        self.list.look_up(place)
    }
}
