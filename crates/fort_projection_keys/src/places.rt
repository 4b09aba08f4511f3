//! The body's views of a place under a tuple symbol without the column.
ghost use Rattle.std.specs.Prelude.{◌≡◌, ◌<◌, [], true, length, OnOk, IfSome};
ghost use Rattle.fort_tuple_symbols.specs.Columns.{as_column};
ghost use Rattle.fort_projection_keys.specs.ProjectionViews as views;

use fort_table::Table;
use fort_table_classes::{TableClasses, are_symbols};
use fort_target_lists::{kid_count, kid_presence};
use fort_terms::{Signature, Sym};
use fort_tuple_symbols::TupleSym;
use std::alloc::AllocError;

/// Whether a symbol with one column less than the body's has such a child.
fn has_child<T: Table>(body: &T, symbol: &TupleSym, place: usize) -> bool
    ensures { result ≡ views.has_child (T.table body.now) symbol.now place }
{
    if symbol.len() != body.columns() - 1 || !are_symbols(body.signature(), symbol) {
        return false;
    }
    place < kid_count(body.signature(), symbol)
}

/// Whether a column has such a child.
fn column_has_child(sig: &Signature, column: Option<Sym>, place: usize) -> bool
    requires { IfSome column (λ g. g.0 < length sig.now) }
    ensures { result ≡ views.column_has_child sig.now (as_column column) place }
{
    match column {
        Some(symbol) => place < usize::from(sig.arity(symbol)),
        None => false,
    }
}

/// The word of the body's view with this in the column.
fn view_word<T: TableClasses>(
    body: &T,
    column: usize,
    symbol: &TupleSym,
    place: usize,
    own: Option<Sym>,
) -> u64
    requires column { column < (T.table body.now).columns }
    requires child { views.has_child (T.table body.now) symbol.now place ≡ true }
    requires own { IfSome own (λ g. g.0 < length (T.table body.now).signature) }
    ensures { result ≡ views.view_word (T.view_number body.now) (T.table body.now) column
        symbol.now place (as_column own) }
{
    // its clause says that the table is lawful
    let _columns = body.columns();
    let whole = symbol.with_column(column, own);
    let number = u64::from(body.view(&whole, place));
    2 * number + u64::from(column_has_child(body.signature(), own, place))
}

/// Appends a word, if it isn't there yet.
fn add_word(words: &mut Vec<u64>, word: u64) -> Result<(), AllocError>
    ensures { OnOk result (words.new.items ≡ views.with_word words.old.items word) }
{
    if words.contains(&word) {
        return Ok(());
    }
    words.push(word)?;
    Ok(())
}

/// Writes the words of the body's views with the column absent, and with each symbol in it.
fn write_words<T: TableClasses>(
    body: &T,
    column: usize,
    symbol: &TupleSym,
    place: usize,
    words: &mut Vec<u64>,
) -> Result<(), AllocError>
    requires column { column < (T.table body.now).columns }
    requires child { views.has_child (T.table body.now) symbol.now place ≡ true }
    requires empty { words.old.items ≡ [] }
    ensures { OnOk result (words.new.items ≡ views.view_words (T.view_number body.now)
        (T.table body.now) column symbol.now place (length (T.table body.now).signature)) }
{
    words.push(view_word(body, column, symbol, place, None))?;
    let symbols = body.signature().len();
    for g in 0..symbols {
        let own = Some(Sym(g as u16));
        add_word(words, view_word(body, column, symbol, place, own))?;
    }
    Ok(())
}

/// Writes the view of a place of the projection.
pub(crate) fn write_view<T: TableClasses>(
    body: &T,
    column: usize,
    symbol: &TupleSym,
    place: usize,
    words: &mut Vec<u64>,
) -> Result<(), AllocError>
    requires column { column < (T.table body.now).columns }
    requires empty { words.old.items ≡ [] }
    ensures { OnOk result (words.new.items ≡ views.projection_view (T.view_number body.now)
        (T.table body.now) column symbol.now place) }
{
    // its clause says that the table is lawful
    let _columns = body.columns();
    if !has_child(body, symbol, place) {
        return Ok(());
    }
    write_words(body, column, symbol, place, words)?;
    let absent = symbol.with_column(column, None);
    words.push(u64::from(kid_presence(body.signature(), &absent, place)))?;
    Ok(())
}
