//! The label of "infinitely many", entry by entry. It takes no memory.
ghost use Rattle.std.specs.Prelude.{◌≡◌, ◌<◌, ◌+◌, ◌-◌, ◌*◌, ◌^◌, [], map, length, IsTrue, Decides};
ghost use Rattle.fort_tables.specs.Labels.{IsOverLabels};
ghost use Rattle.fort_tables.specs.LabelRules.{label_of, entry_label};
ghost use Rattle.fort_tables.specs.BitRows.{words_for};
ghost use Rattle.fort_tables.specs.Projections.{ArePure};
ghost use Rattle.fort_tables.specs.OperationTruth.{accepts as accepts_lem};
ghost use Rattle.fort_tables.specs.Counts.{KeepRules, count_at};
ghost use Rattle.fort_tables.specs.ManyLabels.{many_rule, many_accepts as many_accepts_lem, many_value as many_value_lem, ManyComplete};
ghost use Rattle.fort_findings.specs.FindingView.{as_count};
ghost use Rattle.fort_infinity.specs.ManyCounts.{is_many};

use crate::many_entry::{absent_target, mark};
use fort_findings::Count;
use fort_labels::{Rows, has_bit};
use fort_table::Table;
use fort_tuple_symbols::Row;

/// How many words the label has over a body of this many states.
pub fn many_width(states: usize) -> usize
    requires { states < 2 ^ 32 }
    ensures { result ≡ words_for (2 * states) + 2 }
{
    (2 * states).div_ceil(64) + 2
}

/// Writes the label of an entry: the presence, the body's state with the column absent, a bit for each state that some term in the
/// column gives, and one for each that infinitely many give. `alone` are the body's pure states in that column, and `counts` are to tell
/// of each whether infinitely many terms give it; the label is the one by these counts, whether they are right or not.
pub fn many_label<T: Table>(
    body: &T,
    column: usize,
    alone: &[u32],
    counts: &[Count],
    row: &Row,
    rows: &Rows,
    out: &mut [u64],
)
    requires column { column < (T.table body.now).columns }
    requires alone { ArePure (T.table body.now) column alone.now }
    requires counts { length counts.now ≡ length alone.now }
    requires over { IsOverLabels (T.table body.now).signature ((T.table body.now).columns - 1)
        (label_of (many_rule (T.table body.now) column (is_many alone.now counts.now)))
        rows.now.labels row.now }
    requires room { length out.old ≡ words_for (2 * length (T.table body.now).presences) + 2 }
    ensures { out.new ≡ entry_label (many_rule (T.table body.now) column
        (is_many alone.now counts.now)) rows.now.labels row.now }
{
    // its clause says that the table is lawful
    let _states = body.states();
    for word in out.iter_mut() {
        *word = 0;
    }
    out[0] = row.presence() as u64;
    out[1] = absent_target(body, column, alone, counts, row, rows) as u64;
    mark(body, column, alone, counts, row, rows, out);
}

/// Whether tuples of terms with this label are accepted: whether infinitely many terms give an accepting state of the body.
pub fn many_accepts<T: Table>(body: &T, label: &[u64]) -> bool
    ensures { result ≡ many_accepts_lem (T.table body.now) label.now }
{
    let states = body.states();
    for q in 0..states {
        if has_bit(label, 128 + (states as usize + q as usize)) && body.is_final(q) {
            return true;
        }
    }
    false
}

/// Whether infinitely many terms give an accepting state of a body with one column, by the counts of its states.
pub fn many_value<T: Table>(body: &T, column: usize, alone: &[u32], counts: &[Count]) -> bool
    requires column { column < (T.table body.now).columns }
    requires alone { ArePure (T.table body.now) column alone.now }
    requires counts { length counts.now ≡ length alone.now }
    ensures value { result ≡ many_value_lem (T.table body.now) column
        (is_many alone.now counts.now) }
    ensures truth { (T.table body.now).columns ≡ 1
        → KeepRules (T.table body.now) column (count_at alone.now (map as_count counts.now))
        → Decides result (ManyComplete (T.table body.now).signature column
        (λ t. IsTrue (accepts_lem (T.table body.now) t)) []) }
{
    // its clause says that the table is lawful
    let _states = body.states();
    for i in 0..alone.len() {
        if counts[i].is_infinite() && body.is_final(alone[i]) {
            return true;
        }
    }
    false
}
