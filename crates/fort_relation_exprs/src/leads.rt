//! For each state of an automaton, the row of the states that it leads to by silent moves.
ghost use Rattle.std.specs.Prelude.{◌≡◌, ℕ, ◌+◌, ◌*◌, ◌-◌, ◌<◌, ◌≤◌, ◌^◌, ◌||◌, true, false, map, length, IfOk, vec_items, bit_or};
ghost use Rattle.fort_label_bits.specs.BitRowLists.{row_in};
ghost use Rattle.fort_label_bits.specs.RowBits.{bit_of};
ghost use Rattle.fort_relation_exprs.specs.LeadRows.{AreClosed, AreEven, AreLeads, AreOwn, HasGathered, HasPassed, JoinsRow, NameRows, off_row, off_rows};
ghost use Rattle.fort_tree_automata.specs.NtaView.{NamesItsStates};

use fort_label_bits::{clear_rows, mark};
use fort_tree_automata::Nta;
use std::alloc::{AllocError, Global};
use std::mem;

/// For each state the row of those that it leads to, itself included. The states have the bits from `base` on.
pub(crate) fn leads_of(
    alloc: Global,
    nta: &Nta,
    base: usize,
    width: usize,
) -> Result<Vec<Vec<u64>>, AllocError>
    requires named { NamesItsStates nta.now }
    requires base { base < 2 ^ 33 }
    requires room { base + nta.now.states ≤ 64 * (width - 1) }
    ensures { IfOk result (λ rows. AreLeads nta.now base width (map vec_items rows.items)) }
{
    let mut rows = own_rows(alloc, nta.states as usize, base, width)?;
    settle(alloc, nta, &mut rows);
    Ok(rows)
}

/// For each state a row with its own bit alone.
fn own_rows(
    alloc: Global,
    count: usize,
    base: usize,
    width: usize,
) -> Result<Vec<Vec<u64>>, AllocError>
    requires few { count < 2 ^ 32 }
    requires base { base < 2 ^ 33 }
    requires room { base + count ≤ 64 * (width - 1) }
    ensures many { IfOk result (λ rows. length rows.items ≡ count) }
    ensures widths { IfOk result (λ rows. (p : ℕ) → p < count
        → length (row_in (map vec_items rows.items) p) ≡ width) }
    ensures own { IfOk result (λ rows. AreOwn base count (map vec_items rows.items)) }
{
    let mut rows = clear_rows(alloc, count, width)?;
    for p in 0..count {
        mark(&mut rows, p, base + p);
    }
    Ok(rows)
}

/// Goes over the silent moves until no row gets a bit.
fn settle(alloc: Global, nta: &Nta, rows: &mut Vec<Vec<u64>>)
    requires named { NameRows nta.now.silent.items (map vec_items rows.old.items) }
    requires even { AreEven (map vec_items rows.old.items) }
    ensures gathered { HasGathered nta.now (map vec_items rows.old.items)
        (map vec_items rows.new.items) }
    ensures closed { AreClosed nta.now.silent.items (map vec_items rows.new.items) }
{
    'passes: loop {
        if !pass(alloc, nta, rows) {
            return;
        }
    }
}

/// Goes over the silent moves once, and tells whether a row has got a bit.
fn pass(alloc: Global, nta: &Nta, rows: &mut Vec<Vec<u64>>) -> bool
    requires named { NameRows nta.now.silent.items (map vec_items rows.old.items) }
    requires even { AreEven (map vec_items rows.old.items) }
    ensures { HasPassed nta.now (map vec_items rows.old.items) nta.now.silent.items result
        (map vec_items rows.new.items) }
{
    let mut more = false;
    for step in nta.silent.as_slice() {
        more |= join(alloc, rows, step.0 as usize, step.1 as usize);
    }
    more
}

/// Adds the bits of one row to another, and tells whether it had not all of them.
fn join(alloc: Global, rows: &mut Vec<Vec<u64>>, from: usize, to: usize) -> bool
    requires from { from < length rows.old.items }
    requires to { to < length rows.old.items }
    requires even { AreEven (map vec_items rows.old.items) }
    ensures { JoinsRow (map vec_items rows.old.items) from to result
        (map vec_items rows.new.items) }
{
    if from == to {
        return false;
    }
    let row = mem::replace(&mut rows[to], Vec::new(alloc));
    let more = join_in(&row, &mut rows[from]);
    rows[to] = row;
    more
}

fn join_in(row: &[u64], out: &mut Vec<u64>) -> bool
    requires { length row.now ≤ length out.old.items }
    ensures bits { (q : ℕ) → bit_of q out.new.items
        ≡ (bit_of q out.old.items || bit_of q row.now) }
    ensures width { length out.new.items ≡ length out.old.items }
    ensures less { result ≡ true → off_row out.new.items < off_row out.old.items }
    ensures still { result ≡ false → out.new.items ≡ out.old.items }
{
    let words = out.as_mut_slice();
    join_words(row, words)
}

fn join_words(row: &[u64], out: &mut [u64]) -> bool
    requires { length row.now ≤ length out.old }
    ensures bits { (q : ℕ) → bit_of q out.new ≡ (bit_of q out.old || bit_of q row.now) }
    ensures less { result ≡ true → off_row out.new < off_row out.old }
    ensures still { result ≡ false → out.new ≡ out.old }
{
    let mut more = false;
    for k in 0..row.len() {
        let old = out[k];
        let word = both(old, row[k]);
        out[k] = word;
        more |= word != old;
    }
    more
}

/// The bits of two words.
fn both(a: u64, b: u64) -> u64
    ensures value { result ≡ bit_or a b }
    ensures small { result < 2 ^ 64 }
{
    a | b
}
