//! Tuple symbols as digits: 0 for absent, one more than its number for a symbol.
ghost use Rattle.std.specs.Prelude.{◌≡◌, ◌^◌, ◌-◌, ◌<◌, ◌≤◌, length};
ghost use Rattle.fort_tables.specs.Tuples.{arity, presence, symbol_kids, kid_presence};
ghost use Rattle.fort_tuple_symbols.specs.Columns.{as_column, digit_of, symbol_of, column_arity};
ghost use Rattle.fort_tuple_symbols.specs.DigitNumbers.{AreUpTo};

use fort_terms::{Signature, Sym};

/// 0 for absent, one more than its number for a symbol.
pub fn digit(column: Option<Sym>) -> u32
    ensures value { result ≡ digit_of (as_column column) }
    ensures small { result ≤ 65536 }
{
    match column {
        None => 0,
        Some(sym) => u32::from(sym.0) + 1,
    }
}

/// How many arguments the symbol of a digit has.
pub fn digit_arity(sig: &Signature, digit: u32) -> usize
    requires some { 0 < digit }
    requires within { digit ≤ length sig.now }
    ensures value { result ≡ arity sig.now (digit - 1) }
    ensures small { result ≤ 8 }
{
    // its clause says that the signature is lawful
    let _count = sig.len();
    usize::from(sig.arity(Sym((digit - 1) as u16)))
}

/// How many arguments the symbol of a digit has; an absent column has none.
pub fn column_arity(sig: &Signature, digit: u32) -> usize
    requires { digit ≤ length sig.now }
    ensures value { result ≡ column_arity sig.now digit }
    ensures small { result ≤ 8 }
{
    if digit == 0 {
        0
    } else {
        digit_arity(sig, digit)
    }
}

pub fn most_kids(sig: &Signature, digits: &[u32]) -> usize
    requires { AreUpTo (length sig.now) digits.now }
    ensures value { result ≡ symbol_kids sig.now (symbol_of digits.now) }
    ensures small { result ≤ 8 }
{
    let mut most = 0;
    for i in (0..digits.len()).rev() {
        most = column_arity(sig, digits[i]).max(most);
    }
    most
}

pub fn presence_at(sig: &Signature, digits: &[u32], j: usize) -> u32
    requires few { length digits.now ≤ 16 }
    requires symbols { AreUpTo (length sig.now) digits.now }
    ensures value { result ≡ kid_presence sig.now (symbol_of digits.now) j }
    ensures bound { result < 2 ^ length digits.now }
{
    let mut presence = 0;
    for i in (0..digits.len()).rev() {
        presence = 2 * presence + u32::from(j < column_arity(sig, digits[i]));
    }
    presence
}

pub fn presence_of(digits: &[u32]) -> u32
    requires { length digits.now ≤ 16 }
    ensures value { result ≡ presence (symbol_of digits.now) }
    ensures bound { result < 2 ^ length digits.now }
    ensures small { result < 2 ^ 16 }
{
    let mut presence = 0;
    for i in (0..digits.len()).rev() {
        presence = 2 * presence + u32::from(digits[i] != 0);
    }
    presence
}
