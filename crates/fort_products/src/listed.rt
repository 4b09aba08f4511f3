//! The labels of products by the operands' targets in lists.
ghost use Rattle.std.specs.Prelude.{◌≡◌, ℕ, ◌<◌, [], length, slice_index_or, IfSome};
ghost use Rattle.fort_theory.specs.Signatures as theory;
ghost use Rattle.fort_tables.specs.Labels.{IsOverLabels};
ghost use Rattle.fort_tables.specs.LabelRules.{label_of, entry_label};
ghost use Rattle.fort_tables.specs.Products as products;
ghost use Rattle.fort_products.specs.Operands.{operand_of};
ghost use Rattle.fort_products.specs.OperandRows.{IsOverWords};
ghost use Rattle.fort_target_lists.specs.LabelLists.{labels_at};
ghost use Rattle.fort_target_lists.specs.ListedOperands.{IsListOf};

use crate::joint::under_of;
use crate::operand::Operand;
use crate::words::operand_word;
use fort_labels::Rows;
use fort_table::Table;
use fort_target_lists::FlatTargets;
use fort_tuple_symbols::Row;

/// An operand's word, by its targets in one list where there is one.
fn word_by<T: Table>(
    operand: &Operand<'_, T>,
    list: Option<&FlatTargets>,
    at: usize,
    row: &Row,
    rows: &Rows,
) -> u64
    requires list { IfSome list (λ l. IsListOf (operand_of T.table operand.now) l.now) }
    requires over { (sig : theory.Signature) × IsOverWords sig (length row.now.symbol)
        (operand_of T.table operand.now) at rows.now.labels row.now }
    requires wide { (q : ℕ) → q < length rows.now.labels
        → at < length (slice_index_or rows.now.labels q []) }
    ensures { result ≡ products.operand_step at (operand_of T.table operand.now) row.now.symbol
        (labels_at rows.now.labels row.now.kids) }
{
    match under_of(operand, list, at, row.digits()) {
        Some(under) => under.word(rows, row.kids()),
        None => operand_word(operand, at, row, rows),
    }
}

/// Both operands' words, where none of them is a table without a list.
fn listed_words<T: Table>(
    first: &Operand<'_, T>,
    first_list: Option<&FlatTargets>,
    second: &Operand<'_, T>,
    second_list: Option<&FlatTargets>,
    row: &Row,
    rows: &Rows,
) -> Option<(u64, u64)>
    requires first_list { IfSome first_list (λ l. IsListOf (operand_of T.table first.now) l.now) }
    requires second_list { IfSome second_list (λ l. IsListOf (operand_of T.table second.now)
        l.now) }
    requires operands { products.AreOperands (products.signature_of (operand_of T.table first.now)
        (operand_of T.table second.now)) (length row.now.symbol) (operand_of T.table first.now)
        (operand_of T.table second.now) }
    requires over { IsOverLabels (products.signature_of (operand_of T.table first.now)
        (operand_of T.table second.now)) (length row.now.symbol) (label_of (products.product_rule
        (length row.now.symbol) (operand_of T.table first.now) (operand_of T.table second.now)))
        rows.now.labels row.now }
    ensures first { IfSome result (λ words. words.0 ≡ products.operand_step 1
        (operand_of T.table first.now) row.now.symbol (labels_at rows.now.labels row.now.kids)) }
    ensures second { IfSome result (λ words. words.1 ≡ products.operand_step 2
        (operand_of T.table second.now) row.now.symbol (labels_at rows.now.labels row.now.kids)) }
{
    let digits = row.digits();
    let kids = row.kids();
    let first = under_of(first, first_list, 1, digits)?;
    let second = under_of(second, second_list, 2, digits)?;
    Some((first.word(rows, kids), second.word(rows, kids)))
}

/// Writes the label of an entry of a product, by the operands' targets in one list where there is one.
pub(crate) fn write_both<T: Table>(
    first: &Operand<'_, T>,
    first_list: Option<&FlatTargets>,
    second: &Operand<'_, T>,
    second_list: Option<&FlatTargets>,
    row: &Row,
    rows: &Rows,
    out: &mut [u64],
)
    requires first_list { IfSome first_list (λ l. IsListOf (operand_of T.table first.now) l.now) }
    requires second_list { IfSome second_list (λ l. IsListOf (operand_of T.table second.now)
        l.now) }
    requires operands { products.AreOperands (products.signature_of (operand_of T.table first.now)
        (operand_of T.table second.now)) (length row.now.symbol) (operand_of T.table first.now)
        (operand_of T.table second.now) }
    requires over { IsOverLabels (products.signature_of (operand_of T.table first.now)
        (operand_of T.table second.now)) (length row.now.symbol) (label_of (products.product_rule
        (length row.now.symbol) (operand_of T.table first.now) (operand_of T.table second.now)))
        rows.now.labels row.now }
    requires room { length out.old ≡ 3 }
    ensures { out.new ≡ entry_label (products.product_rule (length row.now.symbol)
        (operand_of T.table first.now) (operand_of T.table second.now)) rows.now.labels row.now }
{
    out[0] = row.presence() as u64;
    match listed_words(first, first_list, second, second_list, row, rows) {
        Some((first_word, second_word)) => {
            out[1] = first_word;
            out[2] = second_word;
        }
        None => {
            out[1] = word_by(first, first_list, 1, row, rows);
            out[2] = word_by(second, second_list, 2, row, rows);
        }
    }
}
