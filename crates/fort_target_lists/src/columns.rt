//! Columns of tuple symbols.
ghost use Rattle.std.specs.Prelude.{◌≡◌, ◌<◌, ◌≤◌, ◌^◌, [], ◌∷◌, length, IfSome};
ghost use Rattle.fort_tuple_symbols.specs.Columns.{as_column};
ghost use Rattle.fort_tables.specs.Tuples.{AreSymbols, symbol_kids, kid_presence as kid_presence_lem};
ghost use Rattle.fort_tables.specs.Selections.{selected as selected_lem, is_present as is_present_lem, ArePlaces};

use fort_terms::{Signature, Sym};
use fort_tuple_symbols::TupleSym;

/// The columns at these places.
pub fn selected(sym: &TupleSym, places: &[usize]) -> TupleSym
    requires few { length places.now ≤ 16 }
    requires within { ArePlaces (length sym.now) places.now }
    ensures { result ≡ selected_lem places.now sym.now }
{
    let mut columns = [None; 16];
    for k in 0..places.len() {
        columns[k] = sym.symbol(places[k]);
    }
    TupleSym::new(&columns[..places.len()])
}

/// Whether the tuple symbol has some column.
pub fn is_present(sym: &TupleSym) -> bool
    ensures { result ≡ is_present_lem sym.now }
{
    for k in 0..sym.len() {
        if sym.symbol(k).is_some() {
            return true;
        }
    }
    false
}

/// How many children the tuple symbol has.
pub fn kid_count(sig: &Signature, sym: &TupleSym) -> usize
    requires { AreSymbols sig.now sym.now }
    ensures count { result ≡ symbol_kids sig.now sym.now }
    ensures few { result ≤ 8 }
{
    // its clause says that the signature is lawful
    let _symbols = sig.len();
    let mut count = 0;
    for k in 0..sym.len() {
        if let Some(symbol) = sym.symbol(k) {
            let arity = sig.arity(symbol) as usize;
            if count < arity {
                count = arity;
            }
        }
    }
    count
}

/// Which columns child `j` has: bit i for column i.
pub fn kid_presence(sig: &Signature, sym: &TupleSym, j: usize) -> u16
    requires { AreSymbols sig.now sym.now }
    ensures value { result ≡ kid_presence_lem sig.now sym.now j }
    ensures bound { result < 2 ^ length sym.now }
{
    // its clause says that the signature is lawful
    let _symbols = sig.len();
    let mut presence = 0u32;
    for k in 0..sym.len() {
        presence = 2 * presence + has_kid(sig, sym.symbol(sym.len() - 1 - k), j);
    }
    presence as u16
}

/// 1 where the column's symbol has more than `j` arguments.
fn has_kid(sig: &Signature, column: Option<Sym>, j: usize) -> u32
    requires { IfSome column (λ g. g.0 < length sig.now) }
    ensures { result ≡ kid_presence_lem sig.now (as_column column ∷ []) j }
{
    match column {
        Some(symbol) if j < sig.arity(symbol) as usize => 1,
        _ => 0,
    }
}
