//! How many entries a table has, by how many states each presence has.
ghost use Rattle.std.specs.Prelude.{◌≡◌, ℕ, ◌-◌, ◌<◌, ◌≤◌, ◌^◌, min, List, [], length, slice_index, IsTrue, IsFalse, suc};
ghost use Rattle.fort_tables.specs.Tuples.{AreSymbols, symbol_kids};
ghost use Rattle.fort_tables.specs.Laid.{entries_from, entries_under, by_symbol};
ghost use Rattle.fort_target_lists.specs.Places.{AreCounts};

use crate::columns::{is_present, kid_count, kid_presence};
use fort_terms::Signature;
use fort_tuple_symbols::TupleSym;

/// How many states have each presence: the counts are zeros before.
pub(crate) fn count_states(presences: &[u16], counts: &mut [u32])
    requires few { length presences.now < 2 ^ 32 }
    requires none { (w : ℕ) → w < length counts.old → slice_index counts.old w ≡ 0 }
    requires within { (q : ℕ) → q < length presences.now
        → slice_index presences.now q < length counts.old }
    ensures size { length counts.new ≡ length counts.old }
    ensures counts { AreCounts presences.now counts.new }
{
    for q in 0..presences.len() {
        counts[presences[q] as usize] += 1;
    }
}

/// How many entries a tuple symbol with a present column has; at most `usize::MAX` is told.
fn present_entries(signature: &Signature, symbol: &TupleSym, counts: &[u32]) -> usize
    requires symbols { AreSymbols signature.now symbol.now }
    requires size { 2 ^ length symbol.now ≤ length counts.now }
    ensures { (ps : List ℕ) → AreCounts ps counts.now → result ≡ min (length (entries_from
        signature.now ps symbol.now [] 0 (symbol_kids signature.now symbol.now))) (2 ^ 64 - 1) }
{
    let kids = kid_count(signature, symbol);
    let mut entries = 1usize;
    for j in 0..kids {
        let presence = kid_presence(signature, symbol, j) as usize;
        entries = entries.saturating_mul(counts[presence] as usize);
    }
    entries
}

/// How many entries a tuple symbol has: none without a present column. At most `usize::MAX` is told.
fn symbol_entries(signature: &Signature, symbol: &TupleSym, counts: &[u32]) -> usize
    requires symbols { AreSymbols signature.now symbol.now }
    requires size { 2 ^ length symbol.now ≤ length counts.now }
    ensures { (ps : List ℕ) → AreCounts ps counts.now → result ≡ min (length (entries_under
        signature.now ps symbol.now)) (2 ^ 64 - 1) }
{
    if !is_present(symbol) {
        return 0;
    }
    present_entries(signature, symbol, counts)
}

/// Whether a table over states with these counts of presences has so many entries.
pub fn has_entries(
    signature: &Signature,
    columns: usize,
    base: usize,
    count: usize,
    counts: &[u32],
    number: usize,
) -> bool
    requires count { count ≡ base ^ columns }
    requires base { base ≡ suc (length signature.now) }
    requires narrow { columns ≤ 16 }
    requires size { 2 ^ columns ≤ length counts.now }
    requires few { number < 2 ^ 32 }
    ensures yes { (ps : List ℕ) → AreCounts ps counts.now → IsTrue result
        → length (by_symbol signature.now columns ps) ≡ number }
    ensures no { (ps : List ℕ) → AreCounts ps counts.now → IsFalse result
        → length (by_symbol signature.now columns ps) ≡ number → ⊥ }
{
    // its clause says that the signature is lawful
    let _symbols = signature.len();
    let mut symbol = TupleSym::absent(columns);
    let mut sum = 0usize;
    for _ in 0..count {
        sum = sum.saturating_add(symbol_entries(signature, &symbol, counts));
        if sum > number {
            return false;
        }
        symbol.to_next(base);
    }
    sum == number
}

/// How many entries a table over states with these counts of presences has; at most `usize::MAX` is told.
pub(crate) fn count_entries(
    signature: &Signature,
    columns: usize,
    base: usize,
    count: usize,
    counts: &[u32],
) -> usize
    requires count { count ≡ base ^ columns }
    requires base { base ≡ suc (length signature.now) }
    requires narrow { columns ≤ 16 }
    requires size { 2 ^ columns ≤ length counts.now }
    ensures { (ps : List ℕ) → AreCounts ps counts.now → result
        ≡ min (length (by_symbol signature.now columns ps)) (2 ^ 64 - 1) }
{
    // its clause says that the signature is lawful
    let _symbols = signature.len();
    let mut symbol = TupleSym::absent(columns);
    let mut sum = 0usize;
    for _ in 0..count {
        sum = sum.saturating_add(symbol_entries(signature, &symbol, counts));
        symbol.to_next(base);
    }
    sum
}
