//! Rows of bits, as labels have them.
ghost use Rattle.std.specs.Prelude.{◌≡◌, ℕ, ◌+◌, ◌*◌, ◌-◌, ◌<◌, ◌≤◌, ◌^◌, ◌&&◌, ◌||◌, ◌==◌, map, length, IfOk, vec_items};
ghost use Rattle.fort_tables.specs.BitRows.{has_bit};
ghost use Rattle.fort_label_bits.specs.RowBits.{bit_of};
ghost use Rattle.fort_label_bits.specs.BitRowLists.{AreClear, SetsBit, row_in};

use fort_labels::set_bit;
use std::alloc::{AllocError, Global};

/// So many rows of this width, with no bit on.
pub fn clear_rows(alloc: Global, count: usize, width: usize) -> Result<Vec<Vec<u64>>, AllocError>
    ensures { IfOk result (λ rows. AreClear count width (map vec_items rows.items)) }
{
    let mut rows = Vec::with_capacity(alloc, count)?;
    for k in 0..count {
        rows.push(vec![in alloc; 0; width]?)?;
    }
    Ok(rows)
}

/// Sets a bit of a row, counted from its second word.
pub fn mark(rows: &mut Vec<Vec<u64>>, row: usize, bit: usize)
    requires row { row < length rows.old.items }
    requires small { bit < 2 ^ 62 }
    requires bit { bit < 64 * (length (row_in (map vec_items rows.old.items) row) - 1) }
    ensures { SetsBit (map vec_items rows.old.items) row bit (map vec_items rows.new.items) }
{
    set_in(&mut rows[row], bit);
}

fn set_in(row: &mut Vec<u64>, bit: usize)
    requires small { bit < 2 ^ 62 }
    requires room { bit < 64 * (length row.old.items - 1) }
    ensures bits { (i : ℕ) → has_bit row.new.items i
        ≡ ((64 + bit == i) || has_bit row.old.items i) }
    ensures width { length row.new.items ≡ length row.old.items }
{
    let words = row.as_mut_slice();
    set_bit(words, 64 + bit);
}

/// A row of some.
pub fn row_at(rows: &[Vec<u64>], k: usize) -> &[u64]
    requires { k < length rows.now }
    ensures { result.now ≡ row_in (map vec_items rows.now) k }
{
    rows[k].as_slice()
}

/// Adds the bits of a row to those that are written, where it is wanted.
pub fn add_row(on: bool, row: &[u64], out: &mut [u64])
    requires { length row.now ≤ length out.old }
    ensures { (q : ℕ) → bit_of q out.new ≡ (bit_of q out.old || (on && bit_of q row.now)) }
{
    if !on {
        return;
    }
    add_words(row, out);
}

fn add_words(row: &[u64], out: &mut [u64])
    requires { length row.now ≤ length out.old }
    ensures { (q : ℕ) → bit_of q out.new ≡ (bit_of q out.old || bit_of q row.now) }
{
    for k in 0..row.len() {
        out[k] |= row[k];
    }
}
