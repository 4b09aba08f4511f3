//! The labels of a product's entries, one tuple symbol at a time.
ghost use Rattle.std.specs.Prelude.{◌≡◌, ◌^◌, ◌<◌, [], ◌∷◌, length, IfSome, IsTrue};
ghost use Rattle.fort_theory.specs.Signatures as theory;
ghost use Rattle.fort_tables.specs.Tuples.{TupleSymbol, AreSymbols, presence as presence_lem};
ghost use Rattle.fort_tables.specs.Entries.{entry};
ghost use Rattle.fort_tables.specs.Labels.{IsOverLabels};
ghost use Rattle.fort_tables.specs.LabelRules.{label_of, entry_label};
ghost use Rattle.fort_tuple_symbols.specs.Columns.{as_column, symbol_of};
ghost use Rattle.fort_tables.specs.Products as products;
ghost use Rattle.fort_tables.specs.Selections.{selected, ArePlaces};
ghost use Rattle.fort_products.specs.Operands.{operand_of};
ghost use Rattle.fort_target_lists.specs.Places.{number_of};
ghost use Rattle.fort_target_lists.specs.Flats.{IsFlatOf};
ghost use Rattle.fort_target_lists.specs.ListedOperands.{IsListOf};
ghost use Rattle.fort_products.specs.Joints.{IsUnderOf, IsJointOf, states_under, place_under, AreStatesUnder, IsWordThere, word_under};

use crate::operand::Operand;
use fort_labels::Rows;
use fort_table::Table;
use fort_target_lists::FlatTargets;
use fort_terms::Sym;
use fort_tuple_symbols::TupleSym;

/// What an operand's words under one tuple symbol of a product are read by.
#[derive(Clone, Copy)]
pub(crate) struct Under<'a> {
    /// The targets of the operand's table; where there are none, the word is 0.
    list: Option<&'a FlatTargets>,
    /// Where those of the tuple symbol start.
    start: usize,
    /// Which word of the labels is the operand's.
    at: usize,
}

/// The labels of the entries of one tuple symbol of a product.
#[derive(Clone, Copy)]
pub(crate) struct Joint<'a> {
    presence: u64,
    first: Under<'a>,
    second: Under<'a>,
}

/// 1 where there is a symbol, 0 else.
fn bit(column: Option<Sym>) -> u64
    ensures { result ≡ presence_lem (as_column column ∷ []) }
{
    match column {
        Some(_) => 1,
        None => 0,
    }
}

/// Bit i for column i.
fn presence(symbol: &TupleSym) -> u64
    ensures { result ≡ presence_lem symbol.now }
{
    let mut presence = 0u64;
    for k in (0..symbol.len()).rev() {
        presence = 2 * presence + bit(symbol.symbol(k));
    }
    presence
}

/// The number of the columns at these places, by the digits of all columns.
fn number_in(base: usize, digits: &[u32], places: &[usize]) -> usize
    requires some { 0 < base }
    requires within { ArePlaces (length digits.now) places.now }
    requires small { number_of base (selected places.now (symbol_of digits.now)) < 2 ^ 64 }
    ensures { result ≡ number_of base (selected places.now (symbol_of digits.now)) }
{
    let mut number = 0;
    for k in 0..places.len() {
        number = number * base + digits[places[k]] as usize;
    }
    number
}

/// What a table's words are read by.
fn table_under<'a, T: Table>(
    table: &T,
    list: &'a FlatTargets,
    places: &[usize],
    at: usize,
    digits: &[u32],
) -> Under<'a>
    requires list { IsFlatOf (T.table table.now) list.now }
    requires operand { (sig : theory.Signature) × products.IsOperand sig (length digits.now)
        (products.OfTable (T.table table.now) places.now) × AreSymbols sig (symbol_of digits.now) }
    ensures { IsUnderOf (products.OfTable (T.table table.now) places.now) at
        (symbol_of digits.now) result }
{
    // its clause says that the table is lawful
    let _columns = table.columns();
    let number = number_in(list.base, digits, places);
    if number == 0 {
        return Under {
            list: None,
            start: 0,
            at,
        };
    }
    Under {
        list: Some(list),
        start: list.start(number),
        at,
    }
}

/// What an operand's words are read by, unless it is a table without a list.
pub(crate) fn under_of<'a, T: Table>(
    operand: &Operand<'_, T>,
    list: Option<&'a FlatTargets>,
    at: usize,
    digits: &[u32],
) -> Option<Under<'a>>
    requires list { IfSome list (λ l. IsListOf (operand_of T.table operand.now) l.now) }
    requires operand { (sig : theory.Signature) × products.IsOperand sig (length digits.now)
        (operand_of T.table operand.now) × AreSymbols sig (symbol_of digits.now) }
    ensures { IfSome result (IsUnderOf (operand_of T.table operand.now) at
        (symbol_of digits.now)) }
{
    match operand {
        Operand::Auto(table, places) => match list {
            Some(list) => Some(table_under(*table, list, places, at, digits)),
            None => None,
        },
        Operand::Truth(_) => Some(Under {
            list: None,
            start: 0,
            at,
        }),
    }
}

/// How the label of a tuple symbol's entries is found, where the list of each operand that is a table is there.
pub(crate) fn joint_of<'a, T: Table>(
    first: &Operand<'_, T>,
    first_list: Option<&'a FlatTargets>,
    second: &Operand<'_, T>,
    second_list: Option<&'a FlatTargets>,
    symbol: &TupleSym,
) -> Option<Joint<'a>>
    requires first_list { IfSome first_list (λ l. IsListOf (operand_of T.table first.now) l.now) }
    requires second_list { IfSome second_list (λ l. IsListOf (operand_of T.table second.now)
        l.now) }
    requires operands { products.AreOperands (products.signature_of (operand_of T.table first.now)
        (operand_of T.table second.now)) (length symbol.now) (operand_of T.table first.now)
        (operand_of T.table second.now) }
    requires symbols { AreSymbols (products.signature_of (operand_of T.table first.now)
        (operand_of T.table second.now)) symbol.now }
    ensures { IfSome result (IsJointOf (operand_of T.table first.now)
        (operand_of T.table second.now) symbol.now) }
{
    let digits = symbol.digits();
    let first = under_of(first, first_list, 1, digits)?;
    let second = under_of(second, second_list, 2, digits)?;
    Some(Joint {
        presence: presence(symbol),
        first,
        second,
    })
}

impl Under<'_> {
    /// The place of the states that the children's labels tell. From the first child without a word on, none of them counts.
    fn place(&self, list: &FlatTargets, rows: &Rows, kids: &[u32]) -> usize
        requires { AreStatesUnder list.now self.now rows.now.labels kids.now }
        ensures { result ≡ place_under list.now (states_under self.now rows.now.labels kids.now) }
    {
        // its clause bounds the length
        let _count = list.listing.targets.len();
        let mut place = 0usize;
        for j in 0..kids.len() {
            let word = rows.label(kids[j])[self.at];
            if word == 0 {
                return place;
            }
            let state = (word - 1) as usize;
            place = place * list.spots.alike[state] as usize + list.spots.ranks[state] as usize;
        }
        place
    }

    /// The operand's word in the label of the entry over these child states.
    pub(crate) fn word(&self, rows: &Rows, kids: &[u32]) -> u64
        requires { IsWordThere self.now rows.now.labels kids.now }
        ensures { result ≡ word_under self.now rows.now.labels kids.now }
    {
        match self.list {
            None => 0,
            Some(list) => {
                let place = self.place(list, rows, kids);
                list.listing.targets[self.start + place] as u64 + 1
            }
        }
    }
}

impl Joint<'_> {
    /// Whether a label is that of the entry over these child states.
    pub(crate) fn is_label(&self, rows: &Rows, kids: &[u32], label: &[u64]) -> bool
        requires { (first second : products.Operand) × (f : TupleSymbol)
            × IsJointOf first second f self.now
            × products.AreOperands (products.signature_of first second) (length f) first second
            × IsOverLabels (products.signature_of first second) (length f)
            (label_of (products.product_rule (length f) first second)) rows.now.labels
            (entry f kids.now) }
        ensures { (first second : products.Operand) (f : TupleSymbol)
            → IsJointOf first second f self.now
            → products.AreOperands (products.signature_of first second) (length f) first second
            → IsOverLabels (products.signature_of first second) (length f)
            (label_of (products.product_rule (length f) first second)) rows.now.labels
            (entry f kids.now)
            → IsTrue result
            → label.now ≡ entry_label (products.product_rule (length f) first second)
            rows.now.labels (entry f kids.now) }
    {
        match label {
            [presence, first, second] => {
                *presence == self.presence
                    && *first == self.first.word(rows, kids)
                    && *second == self.second.word(rows, kids)
            }
            _ => false,
        }
    }
}
