//! The leaders of states at one place, by the targets over them.
ghost use Rattle.std.specs.Prelude.{◌≡◌, ℕ, ◌<◌, length, slice_index, IsTrue, IsFalse, IfOk};
ghost use Rattle.fort_classed_tables.specs.TargetColumns.{IsWithin, column_at};
ghost use Rattle.fort_classed_tables.specs.ColumnLeaders.{GivesFirst, AreLedStates};

use crate::columns::Columns;
use crate::list_set::ListSet;
use fort_lockstep::Dta;
use fort_table::Table;
use std::alloc::{AllocError, Global};

/// The columns that were met, each with the first state that has it.
#[derive(Drop)]
pub struct MetColumns {
    pub columns: ListSet,
    pub firsts: Vec<u32>,
}

impl MetColumns {
    /// The first state with this column; where none has it, this is one.
    fn first_with(&mut self, column: Vec<u32>, state: u32) -> Result<u32, AllocError>
        requires one { length self.old.columns ≡ length self.old.firsts.items }
        ensures { IfOk result (GivesFirst self.old self.new column.items state) }
    {
        match self.columns.find(column.as_slice()) {
            Some(number) => Ok(self.firsts[number]),
            None => {
                self.columns.push(column)?;
                self.firsts.push(state)?;
                Ok(state)
            }
        }
    }

    /// The first state with the column of this one, where it may stand at the place; else the state itself.
    fn leader(
        &mut self,
        alloc: Global,
        columns: &Columns,
        rank: usize,
        is_there: bool,
        state: u32,
    ) -> Result<u32, AllocError>
        requires one { length self.old.columns ≡ length self.old.firsts.items }
        requires within { IsWithin columns.now }
        requires rank { IsTrue is_there → rank < columns.now.count }
        ensures there { IfOk result (λ l. IsTrue is_there
            → GivesFirst self.old self.new (column_at columns.now rank) state l) }
        ensures not_there { IfOk result (λ l. IsFalse is_there
            → (l ≡ state) × (self.new ≡ self.old)) }
    {
        if !is_there {
            return Ok(state);
        }
        let column = columns.column(alloc, rank)?;
        self.first_with(column, state)
    }
}

/// For each state of this presence the first one over which the same targets stand; each other state has itself. `ranks` are those of
/// the states among the ones of their presences.
pub fn leaders_by(
    alloc: Global,
    table: &Dta,
    ranks: &[u32],
    presence: u16,
    columns: &Columns,
) -> Result<Vec<u32>, AllocError>
    requires within { IsWithin columns.now }
    requires long { length ranks.now ≡ length table.now.presences }
    requires ranks { (q : ℕ) → q < length table.now.presences
        → slice_index table.now.presences q ≡ presence
        → slice_index ranks.now q < columns.now.count }
    ensures { IfOk result (λ ls. AreLedStates columns.now ranks.now table.now.presences presence
        (length table.now.presences) ls.items) }
{
    let mut met = MetColumns {
        columns: ListSet::new(alloc),
        firsts: Vec::new(alloc),
    };
    let mut leaders = Vec::with_capacity(alloc, table.states() as usize)?;
    for q in 0..table.states() {
        let is_there = table.presence(q) == presence;
        let leader = met.leader(alloc, columns, ranks[q as usize] as usize, is_there, q)?;
        leaders.push(leader)?;
    }
    Ok(leaders)
}
