//! Whether a node is an entry over earlier nodes.
ghost use Rattle.std.specs.Prelude.{◌≡◌, ℕ, ◌≤◌, ◌<◌, ◌↔◌, length, slice_index, slice_index_or, IsTrue, IfSome, IfNone, None};
ghost use Rattle.fort_theory.specs.Signatures as theory;
ghost use Rattle.fort_tables.specs.Tuples.{AreSymbols};
ghost use Rattle.fort_tables.specs.Entries.{IsEntry};
ghost use Rattle.fort_tuple_symbols.specs.Columns.{digit_of as digit_of_lem};
ghost use Rattle.fort_steps.specs.OpenView.{as_node};
ghost use Rattle.fort_open_checker.specs.NodeTests.{IsSmallSymbol, HasKidsOver};

use fort_steps::Node;
use fort_target_lists::{is_present, kid_count, kid_presence};
use fort_terms::Signature;
use fort_tuple_symbols::TupleSym;

/// Whether a column is absent, or has a symbol of the signature.
fn is_column(sig: &Signature, column: Option<u32>) -> bool
    ensures { IsTrue result ↔ IfSome column (λ g. g < length sig.now) }
{
    match column {
        Some(symbol) => (symbol as usize) < sig.len(),
        None => true,
    }
}

/// Whether each column is absent, or has a symbol of the signature.
fn are_symbols(sig: &Signature, columns: &[Option<u32>]) -> bool
    ensures { IsTrue result ↔ AreSymbols sig.now columns.now }
{
    for k in 0..columns.len() {
        if !is_column(sig, columns[k]) {
            return false;
        }
    }
    true
}

/// 0 for an absent column, one more than its number for a symbol.
fn digit_of(column: Option<u32>) -> u32
    requires { IsSmallSymbol column }
    ensures digit { result ≡ digit_of_lem column }
    ensures small { result ≤ 65536 }
{
    match column {
        Some(symbol) => symbol + 1,
        None => 0,
    }
}

/// The tuple symbol of these columns.
pub(crate) fn tuple_symbol(columns: &[Option<u32>]) -> TupleSym
    requires few { length columns.now ≤ 16 }
    requires symbols { (sig : theory.Signature) × theory.IsSignature sig
        × AreSymbols sig columns.now }
    ensures { result ≡ columns.now }
{
    let mut digits = [0u32; 16];
    for k in 0..columns.len() {
        digits[k] = digit_of(columns[k]);
    }
    TupleSym::from_digits(&digits[..columns.len()])
}

/// Whether this is the number of a node with this presence.
fn has_presence(presences: &[u16], kid: u32, presence: u16) -> bool
    ensures { IsTrue result ↔ ((kid < length presences.now)
        × (slice_index presences.now kid ≡ presence)) }
{
    match presences.get(kid as usize) {
        Some(own) => *own == presence,
        None => false,
    }
}

/// Whether these are nodes that fit under the tuple symbol, as many as it has children.
fn are_kids(sig: &Signature, symbol: &TupleSym, presences: &[u16], kids: &[u32]) -> bool
    requires { AreSymbols sig.now symbol.now }
    ensures { IsTrue result ↔ HasKidsOver sig.now presences.now symbol.now kids.now }
{
    if kids.len() != kid_count(sig, symbol) {
        return false;
    }
    for j in 0..kids.len() {
        if !has_presence(presences, kids[j], kid_presence(sig, symbol, j)) {
            return false;
        }
    }
    true
}

/// The tuple symbol of a node, where that is an entry over nodes of these presences.
pub(crate) fn entry_symbol(
    sig: &Signature,
    columns: usize,
    presences: &[u16],
    node: &Node,
) -> Option<TupleSym>
    requires { columns ≤ 16 }
    ensures symbol { IfSome result (λ f. f ≡ node.now.syms.items) }
    ensures few { IfSome result (λ f. length node.now.kids.items ≤ 8) }
    ensures some { IfSome result (λ f. IsEntry sig.now columns presences.now (as_node node.now)) }
    ensures none { IfNone result (IsEntry sig.now columns presences.now (as_node node.now) → ⊥) }
{
    // its clause says that the signature is lawful
    let _symbols = sig.len();
    let syms = node.syms.as_slice();
    if syms.len() != columns || !are_symbols(sig, syms) {
        return None;
    }
    let symbol = tuple_symbol(syms);
    let there = is_present(&symbol);
    if there && are_kids(sig, &symbol, presences, &node.kids) {
        Some(symbol)
    } else {
        None
    }
}
