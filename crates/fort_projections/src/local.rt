//! The labels of projections, entry by entry. It takes no memory.
ghost use Rattle.std.specs.Prelude.{◌≡◌, ◌<◌, ◌+◌, ◌-◌, ◌^◌, length};
ghost use Rattle.fort_tables.specs.Labels.{IsOverLabels};
ghost use Rattle.fort_tables.specs.LabelRules.{label_of, entry_label};
ghost use Rattle.fort_tables.specs.Projections.{ArePure, project_rule, project_accepts as project_accepts_lem};
ghost use Rattle.fort_tables.specs.BitRows.{words_for};
ghost use Rattle.fort_target_lists.specs.TargetLists.{IsTargetListOf};

use crate::choices::next_in_set;
use crate::projection::write_label;
use fort_labels::Rows;
use fort_table::Table;
use fort_target_lists::{Finder, TargetList};
use fort_tuple_symbols::Row;

/// How many words the label of a projection of a table of this many states has.
pub fn project_width(states: usize) -> usize
    requires { states < 2 ^ 32 }
    ensures { result ≡ words_for states + 2 }
{
    states.div_ceil(64) + 2
}

/// Writes the label of an entry of the projection: the presence, the body's state with the column absent, and a bit for each state
/// that some term in the column gives. `alone` are the body's pure states in that column.
pub fn project_label<T: Table>(
    body: &T,
    column: usize,
    alone: &[u32],
    list: &TargetList,
    row: &Row,
    rows: &Rows,
    out: &mut [u64],
)
    requires column { column < (T.table body.now).columns }
    requires alone { ArePure (T.table body.now) column alone.now }
    requires list { IsTargetListOf (T.table body.now) list.now }
    requires over { IsOverLabels (T.table body.now).signature ((T.table body.now).columns - 1)
        (label_of (project_rule (T.table body.now) column)) rows.now.labels row.now }
    requires room { length out.old ≡ words_for (length (T.table body.now).presences) + 2 }
    ensures { out.new ≡ entry_label (project_rule (T.table body.now) column) rows.now.labels
        row.now }
{
    // its clause says that the table is lawful
    let _states = body.states();
    let finder = Finder::of(body, list, row, column);
    write_label(body, &finder, column, alone, row, rows, out);
}

/// Whether the projection accepts the tuples of terms with this label: whether the body accepts a state of the label's set.
pub fn project_accepts<T: Table>(body: &T, label: &[u64]) -> bool
    ensures { result ≡ project_accepts_lem (T.table body.now) label.now }
{
    let states = body.states() as usize;
    // Words behind those of the states say nothing.
    let set = &label[..label.len().min(project_width(states))];
    let mut from = 0;
    'states: while let Some(q) = next_in_set(set, from) {
        if q >= states {
            return false;
        }
        if body.is_final(q as u32) {
            return true;
        }
        from = q as u32 + 1;
    }
    false
}
