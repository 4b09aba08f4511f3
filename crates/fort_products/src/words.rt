//! An operand's word in the label of a product.
ghost use Rattle.std.specs.Prelude.{◌≡◌, ◌<◌, ◌≤◌, ◌^◌, ℕ, [], map, take, length, slice_index_or};
ghost use Rattle.fort_theory.specs.Signatures as theory;
ghost use Rattle.fort_tables.specs.Products as products;
ghost use Rattle.fort_products.specs.Operands.{operand_of};
ghost use Rattle.fort_products.specs.OperandRows.{IsOverWords, IsFullWordAt};
ghost use Rattle.fort_target_lists.specs.LabelLists.{labels_at};

use crate::operand::Operand;
use fort_labels::Rows;
use fort_table::Table;
use fort_target_lists::{is_present, kid_count, selected};
use fort_tuple_symbols::Row;

/// An operand's word, which is word `at` in the labels: its state counted from 1, or 0 where none of its columns is present.
pub(crate) fn operand_word<T: Table>(
    operand: &Operand<'_, T>,
    at: usize,
    row: &Row,
    rows: &Rows,
) -> u64
    requires { (sig : theory.Signature) × IsOverWords sig (length row.now.symbol)
        (operand_of T.table operand.now) at rows.now.labels row.now }
    ensures { result ≡ products.operand_step at (operand_of T.table operand.now) row.now.symbol
        (labels_at rows.now.labels row.now.kids) }
{
    match operand {
        Operand::Auto(table, places) => table_word(*table, places, at, row, rows),
        Operand::Truth(_) => 0,
    }
}

fn table_word<T: Table>(table: &T, places: &[usize], at: usize, row: &Row, rows: &Rows) -> u64
    requires { (sig : theory.Signature) × IsOverWords sig (length row.now.symbol)
        (products.OfTable (T.table table.now) places.now) at rows.now.labels row.now }
    ensures { result ≡ products.operand_step at (products.OfTable (T.table table.now) places.now)
        row.now.symbol (labels_at rows.now.labels row.now.kids) }
{
    // its clause says that the table is lawful
    let _columns = table.columns();
    let _states = table.states();
    let symbol = selected(&row.sym(), places);
    if !is_present(&symbol) {
        return 0;
    }
    let count = kid_count(table.signature(), &symbol);
    let states = states_at(row, rows, at, count);
    table.target(&symbol, &states[..count]) as u64 + 1
}

/// The states that word `at` of the first children's labels tells.
fn states_at(row: &Row, rows: &Rows, at: usize, count: usize) -> [u32; 8]
    requires few { count ≤ 8 }
    requires there { count ≤ length row.now.kids }
    requires kids { (j : ℕ) → j < length row.now.kids
        → slice_index_or row.now.kids j 0 < length rows.now.labels }
    requires small { (j : ℕ) → j < count → products.state_at at (slice_index_or rows.now.labels
        (slice_index_or row.now.kids j 0) []) < 2 ^ 32 }
    ensures { take count result ≡ map (products.state_at at) (take count
        (labels_at rows.now.labels row.now.kids)) }
{
    let mut states = [0u32; 8];
    let kids = row.kids();
    for j in 0..count {
        let word = rows.label(kids[j]).get(at).copied().unwrap_or(0);
        states[j] = word.saturating_sub(1) as u32;
    }
    states
}

/// Whether an operand accepts, by its word in the label of a tuple of terms.
pub(crate) fn operand_accepts<T: Table>(operand: &Operand<'_, T>, at: usize, label: &[u64]) -> bool
    requires { IsFullWordAt (operand_of T.table operand.now) at label.now }
    ensures { result ≡ products.operand_accepts at (operand_of T.table operand.now) label.now }
{
    match operand {
        Operand::Auto(table, places) => table_accepts(*table, places, at, label),
        Operand::Truth(truth) => *truth,
    }
}

fn table_accepts<T: Table>(table: &T, _places: &[usize], at: usize, label: &[u64]) -> bool
    requires { IsFullWordAt (products.OfTable (T.table table.now) _places.now) at label.now }
    ensures { result ≡ (T.table table.now).accepting (products.state_at at label.now) }
{
    // its clause says that the table is lawful
    let _states = table.states();
    let word = label.get(at).copied().unwrap_or(0);
    table.is_final(word.saturating_sub(1) as u32)
}
