//! Tests of the children under one root symbol.
ghost use Rattle.std.specs.Prelude.{◌≡◌, ℕ, ◌<◌, ◌^◌, ◌&&◌, length, slice_index_or};
ghost use Rattle.fort_alike.specs.AtomRules.{all_kids, one_kid, some_kid};
ghost use Rattle.fort_label_bits.specs.RowBits.{bit_of, labels_at};

use crate::bits::{all_have, one_has, some_has};
use fort_labels::Rows;
use fort_tuple_symbols::Row;

/// Whether the roots are one symbol and all children have the bit.
pub fn all_under(equal: bool, bit: usize, row: &Row, rows: &Rows) -> bool
    requires bit { bit < 2 ^ 63 }
    requires within { (j : ℕ) → j < length row.now.kids
        → slice_index_or row.now.kids j 0 < length rows.now.labels }
    ensures { result ≡ (equal
        && all_kids (bit_of bit) (labels_at rows.now.labels row.now.kids)) }
{
    equal && all_have(bit, row, rows)
}

/// Whether the roots are one symbol, some child has the first bit, and all others have the other one.
pub fn one_under(equal: bool, bit: usize, other: usize, row: &Row, rows: &Rows) -> bool
    requires bit { bit < 2 ^ 63 }
    requires other { other < 2 ^ 63 }
    requires within { (j : ℕ) → j < length row.now.kids
        → slice_index_or row.now.kids j 0 < length rows.now.labels }
    ensures { result ≡ (equal && one_kid (bit_of bit) (bit_of other)
        (labels_at rows.now.labels row.now.kids)) }
{
    equal && one_has(bit, other, row, rows)
}

/// Whether the roots are one symbol, all children have the first bit, and some child has the other one.
pub fn some_under(equal: bool, bit: usize, other: usize, row: &Row, rows: &Rows) -> bool
    requires bit { bit < 2 ^ 63 }
    requires other { other < 2 ^ 63 }
    requires within { (j : ℕ) → j < length row.now.kids
        → slice_index_or row.now.kids j 0 < length rows.now.labels }
    ensures { result ≡ (equal && (all_kids (bit_of bit) (labels_at rows.now.labels row.now.kids)
        && some_kid (bit_of other) (labels_at rows.now.labels row.now.kids))) }
{
    equal && (all_have(bit, row, rows) && some_has(other, row, rows))
}
