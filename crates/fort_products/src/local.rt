//! The labels of products, entry by entry. It takes no memory.
ghost use Rattle.std.specs.Prelude.{◌≡◌, ℕ, length};
ghost use Rattle.fort_tables.specs.Labels.{IsOverLabels, IsFullLabel};
ghost use Rattle.fort_tables.specs.LabelRules.{label_of, entry_label};
ghost use Rattle.fort_tables.specs.Products.{AreOperands, signature_of, product_rule, product_accepts};
ghost use Rattle.fort_connectives.specs.ConnectiveView.{connective_of};
ghost use Rattle.fort_products.specs.Operands.{operand_of};

use crate::listed::write_both;
use crate::operand::Operand;
use crate::words::operand_accepts;
use fort_connectives::Op;
use fort_labels::Rows;
use fort_table::Table;
use fort_tuple_symbols::Row;

/// Writes the label of an entry of a product: the presence and the two operands' words.
/// Promised to callers: the program itself doesn't call it.
pub fn both_label<T: Table>(
    first: &Operand<'_, T>,
    second: &Operand<'_, T>,
    row: &Row,
    rows: &Rows,
    out: &mut [u64],
)
    requires operands { AreOperands (signature_of (operand_of T.table first.now)
        (operand_of T.table second.now)) (length row.now.symbol) (operand_of T.table first.now)
        (operand_of T.table second.now) }
    requires over { IsOverLabels (signature_of (operand_of T.table first.now)
        (operand_of T.table second.now)) (length row.now.symbol) (label_of (product_rule
        (length row.now.symbol) (operand_of T.table first.now) (operand_of T.table second.now)))
        rows.now.labels row.now }
    requires room { length out.old ≡ 3 }
    ensures { out.new ≡ entry_label (product_rule (length row.now.symbol)
        (operand_of T.table first.now) (operand_of T.table second.now)) rows.now.labels row.now }
{
    write_both(first, None, second, None, row, rows, out);
}

/// Whether the product with this connective accepts the tuples of terms with this label.
pub fn both_accepts<T: Table>(
    op: Op,
    first: &Operand<'_, T>,
    second: &Operand<'_, T>,
    label: &[u64],
) -> bool
    requires { (columns : ℕ) × AreOperands (signature_of (operand_of T.table first.now)
        (operand_of T.table second.now)) columns (operand_of T.table first.now)
        (operand_of T.table second.now) × IsFullLabel (signature_of (operand_of T.table first.now)
        (operand_of T.table second.now)) columns (label_of (product_rule columns
        (operand_of T.table first.now) (operand_of T.table second.now))) label.now }
    ensures { result ≡ product_accepts (connective_of op) (operand_of T.table first.now)
        (operand_of T.table second.now) label.now }
{
    let first_accepts = operand_accepts(first, 1, label);
    let second_accepts = operand_accepts(second, 2, label);
    op.connect(first_accepts, second_accepts)
}
