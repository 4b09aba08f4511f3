//! The bits of a label behind its first word, in the row that is written and in the labels of the children.
ghost use Rattle.std.specs.Prelude.{◌≡◌, ℕ, ◌+◌, ◌*◌, ◌<◌, ◌≤◌, ◌^◌, List, [], ◌∷◌, ◌++◌, Bool, length, drop, ◌-◌, ◌&&◌, ◌||◌, ◌==◌, slice_index, slice_index_or};
ghost use Rattle.std.specs.Slice.Scan.{HoldsNowhere};
ghost use Rattle.fort_alike.specs.AtomRules.{all_kids, one_kid, some_kid, same_roots as same_roots_lem, is_there as is_there_lem};
ghost use Rattle.fort_tuple_symbols.specs.Columns.{as_column};
ghost use Rattle.fort_label_bits.specs.RowBits.{HasBits, IsRow, bit_of, labels_at};

use fort_labels::{Rows, has_bit, set_bit};
use fort_terms::Sym;
use fort_tuple_symbols::Row;

/// Whether a label has this bit, counted from its second word.
pub fn has_mark(label: &[u64], bit: usize) -> bool
    requires { bit < 2 ^ 63 }
    ensures { result ≡ bit_of bit label.now }
{
    has_bit(label, 64 + bit)
}

/// A word, and 0 behind the last one.
fn word_at(label: &[u64], k: usize) -> u64
    ensures { result ≡ slice_index label.now k }
{
    label.get(k).copied().unwrap_or(0)
}

/// Goes on to a bit before which all are off, from this one on.
pub fn skip_off(label: &[u64], bit: usize) -> usize
    requires { bit < 2 ^ 62 }
    ensures low { bit ≤ result }
    ensures near { result ≤ bit + 64 }
    ensures off { HoldsNowhere (λ k. bit_of k label.now) bit result }
{
    let place = bit % 64;
    let rest = word_at(label, 1 + bit / 64) >> place;
    let zeros = rest.trailing_zeros() as usize;
    bit + zeros.min(64 - place)
}

/// Turns all bits off.
pub fn clear(out: &mut [u64])
    ensures { HasBits [] out.new }
{
    for i in 0..out.len() {
        out[i] = 0;
    }
}

/// Puts one more bit behind those that were put.
pub fn put_mark(out: &mut [u64], bit: usize, on: bool)
    requires small { bit < 2 ^ 63 }
    requires room { bit < 64 * (length out.old - 1) }
    ensures { (bits : List Bool) → length bits ≡ bit → HasBits bits out.old
        → HasBits (bits ++ on ∷ []) out.new }
{
    if on {
        set_bit(out, 64 + bit);
    }
}

/// Turns a bit on, where it is to be.
pub fn add_mark(out: &mut [u64], bit: usize, on: bool)
    requires small { bit < 2 ^ 63 }
    requires room { bit < 64 * (length out.old - 1) }
    ensures { (q : ℕ) → bit_of q out.new ≡ (bit_of q out.old || (on && (bit == q))) }
{
    if on {
        set_bit(out, 64 + bit);
    }
}

/// Puts the first word before the bits that were put.
pub fn put_first(out: &mut [u64], first: u64)
    requires { 0 < length out.old }
    ensures { (bits : List Bool) → HasBits bits out.old → IsRow first bits out.new }
{
    set_first(out, first);
}

fn set_first(out: &mut [u64], first: u64)
    requires { 0 < length out.old }
    ensures first { slice_index_or out.new 0 0 ≡ first }
    ensures bits { (bits : List Bool) → HasBits bits out.old → HasBits bits out.new }
{
    out[0] = first;
}

/// Whether all children from this one on have the bit.
fn rest_have(from: usize, bit: usize, row: &Row, rows: &Rows) -> bool
    requires bit { bit < 2 ^ 63 }
    requires from { from ≤ length row.now.kids }
    requires within { (j : ℕ) → j < length row.now.kids
        → slice_index_or row.now.kids j 0 < length rows.now.labels }
    ensures { result ≡ all_kids (bit_of bit)
        (drop from (labels_at rows.now.labels row.now.kids)) }
{
    let kids = row.kids();
    for j in from..kids.len() {
        if !has_mark(rows.label(kids[j]), bit) {
            return false;
        }
    }
    true
}

/// Whether all children have the bit.
pub fn all_have(bit: usize, row: &Row, rows: &Rows) -> bool
    requires bit { bit < 2 ^ 63 }
    requires within { (j : ℕ) → j < length row.now.kids
        → slice_index_or row.now.kids j 0 < length rows.now.labels }
    ensures { result ≡ all_kids (bit_of bit) (labels_at rows.now.labels row.now.kids) }
{
    rest_have(0, bit, row, rows)
}

/// Whether a child has the first bit, and all behind it have the other one.
fn only_has(child: usize, bit: usize, other: usize, row: &Row, rows: &Rows) -> bool
    requires child { child < length row.now.kids }
    requires bit { bit < 2 ^ 63 }
    requires other { other < 2 ^ 63 }
    requires within { (j : ℕ) → j < length row.now.kids
        → slice_index_or row.now.kids j 0 < length rows.now.labels }
    ensures { result ≡ (bit_of bit
        (slice_index_or rows.now.labels (slice_index_or row.now.kids child 0) [])
        && all_kids (bit_of other) (drop (child + 1) (labels_at rows.now.labels row.now.kids))) }
{
    let kids = row.kids();
    has_mark(rows.label(kids[child]), bit) && rest_have(child + 1, other, row, rows)
}

/// Whether some child has the first bit, and all others have the other one.
pub fn one_has(bit: usize, other: usize, row: &Row, rows: &Rows) -> bool
    requires bit { bit < 2 ^ 63 }
    requires other { other < 2 ^ 63 }
    requires within { (j : ℕ) → j < length row.now.kids
        → slice_index_or row.now.kids j 0 < length rows.now.labels }
    ensures { result ≡ one_kid (bit_of bit) (bit_of other)
        (labels_at rows.now.labels row.now.kids) }
{
    let kids = row.kids();
    for j in 0..kids.len() {
        if only_has(j, bit, other, row, rows) {
            return true;
        }
        if !has_mark(rows.label(kids[j]), other) {
            return false;
        }
    }
    false
}

/// Whether some child has the bit.
pub fn some_has(bit: usize, row: &Row, rows: &Rows) -> bool
    requires bit { bit < 2 ^ 63 }
    requires within { (j : ℕ) → j < length row.now.kids
        → slice_index_or row.now.kids j 0 < length rows.now.labels }
    ensures { result ≡ some_kid (bit_of bit) (labels_at rows.now.labels row.now.kids) }
{
    let kids = row.kids();
    for j in 0..kids.len() {
        if has_mark(rows.label(kids[j]), bit) {
            return true;
        }
    }
    false
}

/// Whether both roots are there and are one symbol.
pub fn same_roots(first: Option<Sym>, second: Option<Sym>) -> bool
    ensures { result ≡ same_roots_lem (as_column first) (as_column second) }
{
    match (first, second) {
        (Some(f), Some(g)) => f == g,
        _ => false,
    }
}

/// Whether the root is there.
pub fn is_there(root: Option<Sym>) -> bool
    ensures { result ≡ is_there_lem (as_column root) }
{
    match root {
        Some(_) => true,
        None => false,
    }
}
