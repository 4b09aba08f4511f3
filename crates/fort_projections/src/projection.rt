//! What the label of a projection says of one entry.
ghost use Rattle.std.specs.Prelude.{◌≡◌, ◌<◌, ◌≤◌, ◌+◌, ◌-◌, ◌||◌, ◌^◌, ℕ, false, [], None, map, take, length, slice_index, slice_index_or};
ghost use Rattle.std.specs.List.{insert};
ghost use Rattle.fort_tables.specs.Tuples.{TupleSymbol, presence};
ghost use Rattle.fort_tables.specs.Entries.{entry};
ghost use Rattle.fort_tables.specs.Tables.{IsTableEntry};
ghost use Rattle.fort_tables.specs.BitRows.{words_for};
ghost use Rattle.fort_tables.specs.Labels.{IsOverLabels};
ghost use Rattle.fort_tables.specs.LabelRules.{label_of, entry_label};
ghost use Rattle.fort_tables.specs.Projections.{ArePure, absent_state, has_state, project_rule};
ghost use Rattle.fort_target_lists.specs.LabelLists.{labels_at};
ghost use Rattle.fort_projections.specs.Choices.{IsSearched};
ghost use Rattle.fort_target_lists.specs.LookUps.{FindsUnder, FindsAbove};
ghost use Rattle.fort_projections.specs.Scopes.{FitsScope, gives_in, some_gives};

use crate::choices::Choices;
use crate::scope::Scope;
use fort_labels::{Rows, set_bit};
use fort_table::Table;
use fort_target_lists::{Finder, LookUp};
use fort_terms::Sym;
use fort_tuple_symbols::Row;

/// Writes the label of an entry of the projection, whose targets are found so. `alone` are the body's pure states in the column.
pub(crate) fn write_label<T: Table>(
    body: &T,
    finder: &Finder<'_>,
    column: usize,
    alone: &[u32],
    row: &Row,
    rows: &Rows,
    out: &mut [u64],
)
    requires column { column < (T.table body.now).columns }
    requires finder { FindsAbove (T.table body.now) row.now.symbol column finder.now }
    requires alone { ArePure (T.table body.now) column alone.now }
    requires over { IsOverLabels (T.table body.now).signature ((T.table body.now).columns - 1)
        (label_of (project_rule (T.table body.now) column)) rows.now.labels row.now }
    requires room { length out.old ≡ words_for (length (T.table body.now).presences) + 2 }
    ensures { out.new ≡ entry_label (project_rule (T.table body.now) column) rows.now.labels
        row.now }
{
    write_front(body, finder, column, row, rows, out);
    mark(body, finder, column, alone, row, rows, Scope::All, out);
}

/// Writes the presence and the body's state with the column absent, and no state into the set.
pub(crate) fn write_front<T: Table>(
    body: &T,
    finder: &Finder<'_>,
    column: usize,
    row: &Row,
    rows: &Rows,
    out: &mut [u64],
)
    requires searched { IsSearched (T.table body.now) column rows.now.labels row.now }
    requires finder { FindsAbove (T.table body.now) row.now.symbol column finder.now }
    requires room { 2 ≤ length out.old }
    ensures first { slice_index out.new 0 ≡ presence row.now.symbol }
    ensures second { slice_index out.new 1 ≡ (T.table body.now).target (entry
        (insert row.now.symbol column None)
        (map absent_state (labels_at rows.now.labels row.now.kids))) }
    ensures none { (q : ℕ) → has_state out.new q ≡ false }
{
    clear(out);
    out[0] = row.presence() as u64;
    out[1] = absent_target(body, finder, column, row, rows) as u64;
}

/// Sets all words to 0.
pub(crate) fn clear(words: &mut [u64])
    ensures { (k : ℕ) → slice_index words.new k ≡ 0 }
{
    for word in words.iter_mut() {
        *word = 0;
    }
}

/// The body's state with the column absent.
fn absent_target<T: Table>(
    body: &T,
    finder: &Finder<'_>,
    column: usize,
    row: &Row,
    rows: &Rows,
) -> u32
    requires searched { IsSearched (T.table body.now) column rows.now.labels row.now }
    requires finder { FindsAbove (T.table body.now) row.now.symbol column finder.now }
    ensures { result ≡ (T.table body.now).target (entry (insert row.now.symbol column None)
        (map absent_state (labels_at rows.now.labels row.now.kids))) }
{
    // its clause says that the table is lawful
    let _states = body.states();
    let _columns = body.columns();
    let look_up = finder.absent();
    target_over_absent(body, &look_up, row, rows)
}

/// The body's target over the children's states with the column absent.
fn target_over_absent<T: Table>(body: &T, look_up: &LookUp<'_>, row: &Row, rows: &Rows) -> u32
    requires kids { (j : ℕ) → j < length row.now.kids
        → slice_index_or row.now.kids j 0 < length rows.now.labels }
    requires found { (f : TupleSymbol) × FindsUnder (T.table body.now) f look_up.now
        × IsTableEntry (T.table body.now) (entry f
        (map absent_state (labels_at rows.now.labels row.now.kids))) }
    ensures { (f : TupleSymbol) → FindsUnder (T.table body.now) f look_up.now
        → IsTableEntry (T.table body.now) (entry f
        (map absent_state (labels_at rows.now.labels row.now.kids)))
        → result ≡ (T.table body.now).target (entry f
        (map absent_state (labels_at rows.now.labels row.now.kids))) }
{
    // its clause says that the table is lawful
    let _states = body.states();
    let states = absent_states(row, rows);
    look_up.target(&states[..row.kids().len()])
}

/// The children's states with the column absent.
fn absent_states(row: &Row, rows: &Rows) -> [u32; 8]
    requires kids { (j : ℕ) → j < length row.now.kids
        → slice_index_or row.now.kids j 0 < length rows.now.labels }
    requires small { (j : ℕ) → j < length row.now.kids → absent_state (slice_index_or
        rows.now.labels (slice_index_or row.now.kids j 0) []) < 2 ^ 32 }
    ensures { take (length row.now.kids) result
        ≡ map absent_state (labels_at rows.now.labels row.now.kids) }
{
    let mut states = [0u32; 8];
    let kids = row.kids();
    for j in 0..kids.len() {
        states[j] = rows.label(kids[j]).get(1).copied().unwrap_or(0) as u32;
    }
    states
}

/// Marks each state that some symbol of the scope in the column gives.
pub(crate) fn mark<T: Table>(
    body: &T,
    finder: &Finder<'_>,
    column: usize,
    alone: &[u32],
    row: &Row,
    rows: &Rows,
    scope: Scope,
    out: &mut [u64],
)
    requires searched { IsSearched (T.table body.now) column rows.now.labels row.now }
    requires finder { FindsAbove (T.table body.now) row.now.symbol column finder.now }
    requires alone { ArePure (T.table body.now) column alone.now }
    requires scope { FitsScope (labels_at rows.now.labels row.now.kids) scope }
    requires room { length out.old ≡ words_for (length (T.table body.now).presences) + 2 }
    ensures first { slice_index out.new 0 ≡ slice_index out.old 0 }
    ensures second { slice_index out.new 1 ≡ slice_index out.old 1 }
    ensures marked { (q : ℕ) → has_state out.new q ≡ (some_gives (T.table body.now) column
        row.now.symbol (labels_at rows.now.labels row.now.kids) scope q || has_state out.old q) }
{
    // its clause says that the table is lawful
    let _states = body.states();
    for g in 0..body.signature().len() {
        mark_under(
            body,
            finder,
            column,
            alone,
            row,
            rows,
            Sym(g as u16),
            scope,
            out,
        );
    }
}

/// Marks each state that this symbol gives, where it is one of the scope.
fn mark_under<T: Table>(
    body: &T,
    finder: &Finder<'_>,
    column: usize,
    alone: &[u32],
    row: &Row,
    rows: &Rows,
    sym: Sym,
    scope: Scope,
    out: &mut [u64],
)
    requires searched { IsSearched (T.table body.now) column rows.now.labels row.now }
    requires finder { FindsAbove (T.table body.now) row.now.symbol column finder.now }
    requires alone { ArePure (T.table body.now) column alone.now }
    requires symbol { sym.0 < length (T.table body.now).signature }
    requires scope { FitsScope (labels_at rows.now.labels row.now.kids) scope }
    requires room { length out.old ≡ words_for (length (T.table body.now).presences) + 2 }
    ensures first { slice_index out.new 0 ≡ slice_index out.old 0 }
    ensures second { slice_index out.new 1 ≡ slice_index out.old 1 }
    ensures marked { (q : ℕ) → has_state out.new q ≡ (gives_in (T.table body.now) column
        row.now.symbol (labels_at rows.now.labels row.now.kids) scope q sym.0
        || has_state out.old q) }
{
    // its clause says that the table is lawful
    let _states = body.states();
    let _columns = body.columns();
    let sig = body.signature();
    // its clause says that the signature is lawful
    let _symbols = sig.len();
    let arity = sig.arity(sym) as usize;
    if !scope.takes(arity) {
        return;
    }
    let look_up = finder.under(sym);
    if arity == 0 {
        // no child has the column: there is one choice of states
        let state = target_over_absent(body, &look_up, row, rows);
        set_bit(out, 128 + state as usize);
        return;
    }
    let choices = Choices {
        body,
        column,
        alone,
        row,
        rows,
        sym,
        arity,
        scope,
    };
    choices.visit(&look_up, &[0; 8], 0, arity.max(row.kids().len()), out);
}
