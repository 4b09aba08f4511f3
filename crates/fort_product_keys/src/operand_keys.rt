//! What a place asks of an operand's state.
ghost use Rattle.std.specs.Prelude.{◌≡◌};
ghost use Rattle.fort_theory.specs.Signatures.{Signature};
ghost use Rattle.fort_tables.specs.Products as products;
ghost use Rattle.fort_products.specs.Operands.{operand_of};
ghost use Rattle.fort_product_keys.specs.ProductViews.{view_word, presence_word, key_word, IsSomeView};
ghost use Rattle.fort_product_keys.specs.ProgramViews.{numbers_of, leaders_of};

use fort_products::Operand;
use fort_table_classes::{TableClasses, are_symbols};
use fort_target_lists::{kid_count, kid_presence, selected};
use fort_tuple_symbols::TupleSym;

/// A place's view: one more than its number, or 0 where there is no child; and the presence of the states there.
#[derive(Clone, Copy)]
pub(crate) struct PlaceView {
    pub(crate) number: u64,
    pub(crate) presence: u64,
}

impl PlaceView {
    /// That of a place without a child.
    fn none() -> PlaceView
        ensures number { result.number ≡ 0 }
        ensures presence { result.presence ≡ 0 }
    {
        PlaceView {
            number: 0,
            presence: 0,
        }
    }
}

/// A table's view of a place under a product's tuple symbol.
fn table_view<T: TableClasses>(
    table: &T,
    places: &[usize],
    columns: usize,
    symbol: &TupleSym,
    place: usize,
) -> PlaceView
    requires operand { (sig : Signature) × products.IsOperand sig columns
        (products.OfTable (T.table table.now) places.now) }
    ensures number { result.number ≡ view_word (T.view_number table.now)
        (products.OfTable (T.table table.now) places.now) columns symbol.now place }
    ensures presence { result.presence ≡ presence_word
        (products.OfTable (T.table table.now) places.now) columns symbol.now place }
{
    // its clause says that the table is lawful
    let _columns = table.columns();
    if symbol.len() != columns || !are_symbols(table.signature(), symbol) {
        return PlaceView::none();
    }
    let own = selected(symbol, places);
    if place >= kid_count(table.signature(), &own) {
        return PlaceView::none();
    }
    PlaceView {
        number: u64::from(table.view(&own, place)) + 1,
        presence: u64::from(kid_presence(table.signature(), &own, place)),
    }
}

/// An operand's view of a place.
pub(crate) fn operand_view<T: TableClasses>(
    operand: &Operand<'_, T>,
    columns: usize,
    symbol: &TupleSym,
    place: usize,
) -> PlaceView
    requires operand { (sig : Signature) × products.IsOperand sig columns
        (operand_of T.table operand.now) }
    ensures number { result.number ≡ view_word (numbers_of T.view_number operand.now)
        (operand_of T.table operand.now) columns symbol.now place }
    ensures presence { result.presence ≡ presence_word (operand_of T.table operand.now) columns
        symbol.now place }
{
    match operand {
        Operand::Auto(table, places) => table_view(*table, places, columns, symbol, place),
        Operand::Truth(_) => PlaceView::none(),
    }
}

/// The key of a label's word in a table's view of some place.
fn table_key<T: TableClasses>(table: &T, _places: &[usize], view: PlaceView, word: u64) -> u64
    requires { IsSomeView (T.view_number table.now)
        (products.OfTable (T.table table.now) _places.now) view.number view.presence }
    ensures { result ≡ key_word (T.leader_in table.now)
        (products.OfTable (T.table table.now) _places.now) view.number view.presence word }
{
    if view.number == 0 {
        return 0;
    }
    if word == 0 || word > u64::from(table.states()) {
        return word;
    }
    let state = (word - 1) as u32;
    if u64::from(table.presence(state)) != view.presence {
        return word;
    }
    u64::from(table.leader((view.number - 1) as u32, state)) + 1
}

/// The key of a label's word in an operand's view of some place.
pub(crate) fn operand_key<T: TableClasses>(
    operand: &Operand<'_, T>,
    view: PlaceView,
    word: u64,
) -> u64
    requires { IsSomeView (numbers_of T.view_number operand.now) (operand_of T.table operand.now)
        view.number view.presence }
    ensures { result ≡ key_word (leaders_of T.leader_in operand.now)
        (operand_of T.table operand.now) view.number view.presence word }
{
    match operand {
        Operand::Auto(table, places) => table_key(*table, places, view, word),
        Operand::Truth(_) => 0,
    }
}
