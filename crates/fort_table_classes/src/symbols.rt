//! Whether a tuple symbol is one of a signature's.
ghost use Rattle.std.specs.Prelude.{◌≡◌, [], ◌∷◌};
ghost use Rattle.fort_tuple_symbols.specs.Columns.{as_column};
ghost use Rattle.fort_table_classes.specs.KnownSymbols as known;

use fort_terms::{Signature, Sym};
use fort_tuple_symbols::TupleSym;

/// Whether a column is absent or has one of the signature's symbols.
fn is_column(sig: &Signature, column: Option<Sym>) -> bool
    ensures { result ≡ known.are_symbols sig.now (as_column column ∷ []) }
{
    match column {
        Some(symbol) => usize::from(symbol.0) < sig.len(),
        None => true,
    }
}

/// Whether each column is absent or has one of the signature's symbols.
pub fn are_symbols(sig: &Signature, symbol: &TupleSym) -> bool
    ensures { result ≡ known.are_symbols sig.now symbol.now }
{
    for k in 0..symbol.len() {
        if !is_column(sig, symbol.symbol(k)) {
            return false;
        }
    }
    true
}
