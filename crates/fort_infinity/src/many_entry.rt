//! What the label of "infinitely many" says of one entry.
ghost use Rattle.std.specs.Prelude.{◌≡◌, ◌<◌, ◌+◌, ◌*◌, ◌||◌, ◌^◌, ℕ, [], None, map, take, length, slice_index, slice_index_or};
ghost use Rattle.std.specs.List.{insert};
ghost use Rattle.fort_tables.specs.Entries.{entry};
ghost use Rattle.fort_tables.specs.BitRows.{words_for};
ghost use Rattle.fort_tables.specs.Projections.{ArePure, absent_state, has_state, gives, gives_under};
ghost use Rattle.fort_tables.specs.ManyLabels.{has_many, gives_many, gives_many_under};
ghost use Rattle.fort_tables.specs.ManyEntries.{kid_labels, IsManyEntry};
ghost use Rattle.fort_infinity.specs.ManyCounts.{is_many};

use crate::many_choices::ManyChoices;
use fort_findings::Count;
use fort_labels::Rows;
use fort_table::Table;
use fort_terms::Sym;
use fort_tuple_symbols::Row;

/// The children's states with the column absent.
fn absent_states(row: &Row, rows: &Rows) -> [u32; 8]
    requires kids { (j : ℕ) → j < length row.now.kids
        → slice_index_or row.now.kids j 0 < length rows.now.labels }
    requires small { (j : ℕ) → j < length row.now.kids → absent_state (slice_index_or
        rows.now.labels (slice_index_or row.now.kids j 0) []) < 2 ^ 32 }
    ensures { take (length row.now.kids) result
        ≡ map absent_state (kid_labels rows.now.labels row.now) }
{
    let mut states = [0u32; 8];
    let kids = row.kids();
    for j in 0..kids.len() {
        states[j] = rows.label(kids[j]).get(1).copied().unwrap_or(0) as u32;
    }
    states
}

/// The body's state with the column absent.
pub(crate) fn absent_target<T: Table>(
    body: &T,
    column: usize,
    alone: &[u32],
    counts: &[Count],
    row: &Row,
    rows: &Rows,
) -> u32
    requires { IsManyEntry (T.table body.now) column (is_many alone.now counts.now)
        rows.now.labels row.now }
    ensures { result ≡ (T.table body.now).target (entry (insert row.now.symbol column None)
        (map absent_state (kid_labels rows.now.labels row.now))) }
{
    // its clause says that the table is lawful
    let _states = body.states();
    let symbol = row.sym().with_column(column, None);
    let states = absent_states(row, rows);
    body.target(&symbol, &states[..row.kids().len()])
}

/// Marks each state that some term in the column gives, and each that infinitely many give.
pub(crate) fn mark<T: Table>(
    body: &T,
    column: usize,
    alone: &[u32],
    counts: &[Count],
    row: &Row,
    rows: &Rows,
    out: &mut [u64],
)
    requires entry { IsManyEntry (T.table body.now) column (is_many alone.now counts.now)
        rows.now.labels row.now }
    requires pure { ArePure (T.table body.now) column alone.now }
    requires counts { length counts.now ≡ length alone.now }
    requires room { length out.old ≡ words_for (2 * length (T.table body.now).presences) + 2 }
    ensures first { slice_index out.new 0 ≡ slice_index out.old 0 }
    ensures second { slice_index out.new 1 ≡ slice_index out.old 1 }
    ensures given { (q : ℕ) → q < length (T.table body.now).presences → has_state out.new q
        ≡ (gives (T.table body.now) column row.now.symbol (kid_labels rows.now.labels row.now) q
        || has_state out.old q) }
    ensures many { (q : ℕ) → has_many (length (T.table body.now).presences) out.new q
        ≡ (gives_many (T.table body.now) column (is_many alone.now counts.now) row.now.symbol
        (kid_labels rows.now.labels row.now) q
        || has_many (length (T.table body.now).presences) out.old q) }
{
    // its clause says that the table is lawful
    let _states = body.states();
    for g in 0..body.signature().len() {
        mark_under(body, column, alone, counts, row, rows, Sym(g as u16), out);
    }
}

/// The same for the terms with this root.
fn mark_under<T: Table>(
    body: &T,
    column: usize,
    alone: &[u32],
    counts: &[Count],
    row: &Row,
    rows: &Rows,
    sym: Sym,
    out: &mut [u64],
)
    requires entry { IsManyEntry (T.table body.now) column (is_many alone.now counts.now)
        rows.now.labels row.now }
    requires pure { ArePure (T.table body.now) column alone.now }
    requires counts { length counts.now ≡ length alone.now }
    requires symbol { sym.0 < length (T.table body.now).signature }
    requires room { length out.old ≡ words_for (2 * length (T.table body.now).presences) + 2 }
    ensures first { slice_index out.new 0 ≡ slice_index out.old 0 }
    ensures second { slice_index out.new 1 ≡ slice_index out.old 1 }
    ensures given { (q : ℕ) → q < length (T.table body.now).presences → has_state out.new q
        ≡ (gives_under (T.table body.now) column row.now.symbol
        (kid_labels rows.now.labels row.now) q sym.0 || has_state out.old q) }
    ensures many { (q : ℕ) → has_many (length (T.table body.now).presences) out.new q
        ≡ (gives_many_under (T.table body.now) column (is_many alone.now counts.now)
        row.now.symbol (kid_labels rows.now.labels row.now) q sym.0
        || has_many (length (T.table body.now).presences) out.old q) }
{
    // its clause says that the table is lawful
    let _states = body.states();
    let sig = body.signature();
    // its clause says that the signature is lawful
    let _symbols = sig.len();
    let arity = sig.arity(sym) as usize;
    let choices = ManyChoices {
        body,
        column,
        alone,
        counts,
        row,
        rows,
        sym,
        symbol: row.sym().with_column(column, Some(sym)),
        arity,
    };
    choices.visit([0; 8], false, 0, arity.max(row.kids().len()), out);
}
