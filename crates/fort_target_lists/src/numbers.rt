//! The numbers of tuple symbols.
ghost use Rattle.std.specs.Prelude.{◌≡◌, ◌+◌, ◌*◌, ◌<◌, ◌≤◌, ◌^◌, length, slice_index_or, None};
ghost use Rattle.std.specs.List.{insert};
ghost use Rattle.fort_tuple_symbols.specs.Columns.{as_column, digit_of};
ghost use Rattle.fort_target_lists.specs.Places.{number_of};

use fort_terms::Sym;
use fort_tuple_symbols::TupleSym;

/// The number of a tuple symbol with one more column behind it.
pub(crate) fn number_behind(column: Option<Sym>, base: usize, number: usize) -> usize
    requires { number * base + digit_of (as_column column) < 2 ^ 64 }
    ensures { result ≡ number * base + digit_of (as_column column) }
{
    match column {
        None => number * base,
        Some(symbol) => number * base + symbol.0 as usize + 1,
    }
}

/// The number of a tuple symbol in this base.
pub(crate) fn symbol_number(symbol: &TupleSym, base: usize) -> usize
    requires some { 0 < base }
    requires small { number_of base symbol.now < 2 ^ 64 }
    ensures { result ≡ number_of base symbol.now }
{
    let mut number = 0;
    for k in 0..symbol.len() {
        number = number_behind(symbol.symbol(k), base, number);
    }
    number
}

/// The number of a tuple symbol with one more column, which is absent.
pub(crate) fn number_with_absent(symbol: &TupleSym, column: usize, base: usize) -> usize
    requires column { column ≤ length symbol.now }
    requires some { 0 < base }
    requires small { number_of base (insert symbol.now column None) < 2 ^ 64 }
    ensures { result ≡ number_of base (insert symbol.now column None) }
{
    let mut number = 0;
    for k in 0..symbol.len() + 1 {
        number = number_behind(column_with_absent(symbol, column, k), base, number);
    }
    number
}

/// Column `k` of the tuple symbol with one more column, which is absent.
fn column_with_absent(symbol: &TupleSym, column: usize, k: usize) -> Option<Sym>
    requires within { column ≤ length symbol.now }
    requires index { k ≤ length symbol.now }
    ensures { as_column result ≡ slice_index_or (insert symbol.now column None) k None }
{
    if k < column {
        symbol.symbol(k)
    } else if k == column {
        None
    } else {
        symbol.symbol(k - 1)
    }
}
