//! The views of all places, and their numbers.
ghost use Rattle.std.specs.Prelude.{◌≡◌, ℕ, ◌+◌, ◌*◌, ◌<◌, ◌≤◌, ◌^◌, List, [], ◌++◌, take, drop, length, slice_index, IfOk, OnOk};
ghost use Rattle.fort_tables.specs.Tuples.{TupleSymbol, AreSymbols};
ghost use Rattle.fort_tuple_symbols.specs.SymbolNumbers.{columns_at};
ghost use Rattle.fort_views.specs.SymbolViews.{AreSymbolRows};
ghost use Rattle.fort_class_targets.specs.NumberedViews.{HasNumbers, HasPlaces};

use crate::kids::kid_presences;
use fort_label_keys::LabelKeys;
use fort_target_lists::kid_count;
use fort_terms::Signature;
use fort_tuple_symbols::TupleSym;
use fort_views::Views;
use std::alloc::{AllocError, Global};

/// For each tuple symbol, by its number, where the numbers of its places' views begin.
#[derive(Drop)]
pub(crate) struct ViewNumbers {
    pub starts: Vec<usize>,
    pub numbers: Vec<u32>,
}

/// Appends numbers of views.
fn push_numbers(views: &[usize], numbers: &mut Vec<u32>) -> Result<(), AllocError>
    requires { (j : ℕ) → j < length views.now → slice_index views.now j < 2 ^ 32 }
    ensures { OnOk result (numbers.new.items ≡ numbers.old.items ++ views.now) }
{
    for view in views {
        numbers.push(*view as u32)?;
    }
    Ok(())
}

impl ViewNumbers {
    /// So many numbers, from where those of a tuple symbol begin.
    pub fn of(&self, symbol: usize, count: usize) -> &[u32]
        requires symbol { symbol < length self.now.starts.items }
        requires there { slice_index self.now.starts.items symbol + count
            ≤ length self.now.numbers.items }
        ensures { result.now ≡ take count (drop (slice_index self.now.starts.items symbol)
            self.now.numbers.items) }
    {
        let start = self.starts[symbol];
        let numbers = self.numbers.as_slice();
        &numbers[start..start + count]
    }

    /// Appends the numbers of the views of a tuple symbol's places, which are made where there are none.
    fn add_places<K: LabelKeys>(
        &mut self,
        sig: &Signature,
        keys: &K,
        symbol: &TupleSym,
        views: &mut Views,
    ) -> Result<(), AllocError>
        requires symbols { AreSymbols sig.now symbol.now }
        requires known { AreSymbolRows (K.view keys.now) sig.now (length symbol.now) views.old }
        requires few { length views.old.views.items + 8 ≤ 2 ^ 32 }
        ensures numbers { OnOk result (HasNumbers (K.view keys.now) sig.now symbol.now views.old
            views.new self.old.numbers.items self.new.numbers.items) }
        ensures starts { self.new.starts.items ≡ self.old.starts.items }
    {
        // its clause bounds the number of columns
        let _columns = symbol.len();
        let count = kid_count(sig, symbol);
        if count == 0 {
            return Ok(());
        }
        let wanted = kid_presences(sig, symbol, count);
        let places = views.places(keys, symbol.digits(), &wanted[..count])?;
        push_numbers(places.numbers(), &mut self.numbers)
    }

    /// Appends the numbers for the tuple symbol that has this number.
    fn add_symbol<K: LabelKeys>(
        &mut self,
        sig: &Signature,
        keys: &K,
        symbol: &TupleSym,
        views: &mut Views,
    ) -> Result<(), AllocError>
        requires placed { (n : ℕ) × HasPlaces (K.view keys.now) sig.now (length symbol.now) n
            views.old self.old.starts.items self.old.numbers.items
            × (symbol.now ≡ columns_at (length sig.now + 1) (length symbol.now) n)
            × (8 * (n + 1) ≤ 2 ^ 32) }
        ensures { OnOk result ((n : ℕ) → HasPlaces (K.view keys.now) sig.now (length symbol.now) n
            views.old self.old.starts.items self.old.numbers.items
            → symbol.now ≡ columns_at (length sig.now + 1) (length symbol.now) n
            → HasPlaces (K.view keys.now) sig.now (length symbol.now) (n + 1) views.new
            self.new.starts.items self.new.numbers.items) }
    {
        self.starts.push(self.numbers.len())?;
        self.add_places(sig, keys, symbol, views)
    }

    /// The numbers for all tuple symbols, of which there are so many.
    pub fn of_all<K: LabelKeys>(
        alloc: Global,
        sig: &Signature,
        columns: usize,
        keys: &K,
        count: usize,
        views: &mut Views,
    ) -> Result<ViewNumbers, AllocError>
        requires narrow { columns ≤ 16 }
        requires count { count ≡ (length sig.now + 1) ^ columns }
        requires few { 8 * count ≤ 2 ^ 32 }
        requires none { HasPlaces (K.view keys.now) sig.now columns 0 views.old [] [] }
        ensures { IfOk result (λ v. HasPlaces (K.view keys.now) sig.now columns count views.new
            v.starts.items v.numbers.items) }
    {
        let base = sig.len() + 1;
        let mut made = ViewNumbers {
            starts: Vec::with_capacity(alloc, count)?,
            numbers: Vec::new(alloc),
        };
        let mut symbol = TupleSym::absent(columns);
        'symbols: for _ in 0..count {
            made.add_symbol(sig, keys, &symbol, views)?;
            symbol.to_next(base);
        }
        Ok(made)
    }
}
