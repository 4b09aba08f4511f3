//! Tuple symbols.
ghost use Rattle.std.specs.Prelude.{◌≡◌, ℕ, ◌+◌, ◌<◌, ◌≤◌, ◌↔◌, map, replicate, length, IsTrue, slice_index, slice_index_or, slice_get, None, Some};
ghost use Rattle.std.specs.List.{insert};
ghost use Rattle.fort_tuple_symbols.specs.Columns.{as_column, as_symbol, symbol_of, digit_of};
ghost use Rattle.fort_tuple_symbols.specs.SymbolNumbers.{columns_at};

use crate::digits::digit;
use fort_terms::Sym;
use std::marker::Model;

/// Up to 16 columns, each a symbol or absent.
#[derive(Clone, Copy)]
pub struct TupleSym {
    pub(crate) len: usize,
    pub(crate) digits: [u32; 16],
}

impl Model for TupleSym {
    ghost use Rattle.fort_tables.specs.Tuples.{TupleSymbol};

    ghost Value = { TupleSymbol };

    ghost use Rattle.fort_tuple_symbols.specs.SymbolDigits.{symbol_in, IsCanonical, inside_of, inside_again};

    ghost view = { symbol_in };

    ghost invariant = { IsCanonical };

    ghost inverse = { inside_of };

    ghost inverse_ok = { inside_again };
}

/// Goes to the next digits in a base, the last one counting fastest; behind the greatest come zeros.
fn to_next_digits(digits: &mut [u32], base: u32)
    requires some { 0 < base }
    requires small { (k : ℕ) → slice_index_or digits.old k 0 ≤ 65536 }
    requires few { base ≤ 65536 }
    ensures width { length digits.new ≡ length digits.old }
    ensures small { (k : ℕ) → slice_index_or digits.new k 0 ≤ 65536 }
    ensures next { (n : ℕ) → symbol_of digits.old ≡ columns_at base (length digits.old) n
        → symbol_of digits.new ≡ columns_at base (length digits.old) (n + 1) }
{
    if let Some((last, before)) = digits.split_last_mut() {
        if *last + 1 < base {
            *last += 1;
        } else {
            *last = 0;
            to_next_digits(before, base);
        }
    }
}

/// Digit `k` of these with one more at a place.
fn digit_with(digits: &[u32], place: usize, digit: u32, k: usize) -> u32
    requires within { place ≤ length digits.now }
    requires column { k ≤ length digits.now }
    requires small { (i : ℕ) → slice_index_or digits.now i 0 ≤ 65536 }
    requires digit { digit ≤ 65536 }
    ensures is { result ≡ slice_index_or (insert digits.now place digit) k 0 }
    ensures small { result ≤ 65536 }
{
    if k < place {
        digits[k]
    } else if k == place {
        digit
    } else {
        digits[k - 1]
    }
}

impl TupleSym {
    pub fn new(columns: &[Option<Sym>]) -> TupleSym
        requires { length columns.now ≤ 16 }
        ensures { result ≡ as_symbol columns.now }
    {
        let mut digits = [0u32; 16];
        for i in 0..columns.len() {
            digits[i] = digit(columns[i]);
        }
        TupleSym {
            len: columns.len(),
            digits,
        }
    }

    /// That many columns, all of them absent.
    pub fn absent(columns: usize) -> TupleSym
        requires { columns ≤ 16 }
        ensures { result ≡ replicate columns None }
    {
        TupleSym {
            len: columns,
            digits: [0u32; 16],
        }
    }

    /// Goes to the tuple symbol of the next number in a base, where a column is 0 or one more than its symbol's number; behind the
    /// last one comes the first.
    pub fn to_next(&mut self, base: usize)
        requires some { 0 < base }
        requires few { base ≤ 65536 }
        ensures width { length self.new ≡ length self.old }
        ensures next { (n : ℕ) → self.old ≡ columns_at base (length self.old) n
            → self.new ≡ columns_at base (length self.old) (n + 1) }
    {
        let len = self.len;
        to_next_digits(&mut self.digits[..len], base as u32);
    }

    /// 0 stands for absent, and one more than its number for a symbol.
    pub fn from_digits(from: &[u32]) -> TupleSym
        requires few { length from.now ≤ 16 }
        requires small { (k : ℕ) → slice_index from.now k ≤ 65536 }
        ensures { result ≡ symbol_of from.now }
    {
        let mut digits = [0u32; 16];
        digits[..from.len()].copy_from_slice(from);
        TupleSym {
            len: from.len(),
            digits,
        }
    }

    /// 0 stands for absent, and one more than its number for a symbol.
    pub fn digits(&self) -> &[u32]
        ensures digits { result.now ≡ map digit_of self.now }
        ensures small { (k : ℕ) → slice_index_or result.now k 0 ≤ 65536 }
    {
        let digits = &self.digits;
        &digits[..self.len]
    }

    pub fn len(&self) -> usize
        ensures count { result ≡ length self.now }
        ensures narrow { result ≤ 16 }
    {
        self.len
    }

    /// The tuple symbol with one more column, at this place.
    pub fn with_column(&self, place: usize, sym: Option<Sym>) -> TupleSym
        requires within { place ≤ length self.now }
        requires room { length self.now < 16 }
        ensures { result ≡ insert self.now place (as_column sym) }
    {
        let own = self.digits();
        let mut digits = [0u32; 16];
        for k in 0..own.len() + 1 {
            digits[k] = digit_with(own, place, digit(sym), k);
        }
        TupleSym::from_digits(&digits[..own.len() + 1])
    }

    pub fn symbol(&self, column: usize) -> Option<Sym>
        requires { column < length self.now }
        ensures { slice_get self.now column ≡ Some (as_column result) }
    {
        let digits = &self.digits;
        let digit = digits[column];
        if digit == 0 {
            None
        } else {
            Some(Sym((digit - 1) as u16))
        }
    }

    /// Whether two have the same columns.
    pub(crate) fn is_same(&self, other: &TupleSym) -> bool
        ensures { IsTrue result ↔ (self.now ≡ other.now) }
    {
        let own = &self.digits;
        let others = &other.digits;
        own[..self.len] == others[..other.len]
    }
}
