//! What a tightened list is made of, tuple symbol by tuple symbol.
ghost use Rattle.std.specs.Prelude.{◌≡◌, ℕ, ◌+◌, ◌*◌, ◌<◌, ◌≤◌, ◌^◌, length, IfOk, OnOk};
ghost use Rattle.fort_tables.specs.Tuples.{IsPresent, symbol_kids};
ghost use Rattle.fort_target_lists.specs.Places.{number_of};
ghost use Rattle.fort_tight_lists.specs.TightViews.{AreTightViews};
ghost use Rattle.fort_tight_lists.specs.TightSymbols.{symbol_at, IsReadable, IsTightSymbol, HasMore, HasTightSymbols, AreReadable};

use crate::old_symbol::OldSymbol;
use crate::picks::Firsts;
use crate::places::add_places;
use crate::slices::OneBlock;
use crate::tight_views::TightViews;
use fort_class_blocks::Blocks;
use fort_target_lists::{ClassList, is_present, kid_count};
use fort_terms::Signature;
use fort_tuple_symbols::TupleSym;
use std::alloc::{AllocError, Global};

/// Renumbered views, where each tuple symbol's places begin, the places' views, and the blocks.
#[derive(Drop)]
pub(crate) struct TightParts {
    pub views: TightViews,
    pub starts: Vec<usize>,
    pub numbers: Vec<u32>,
    pub blocks: Blocks,
}

impl TightParts {
    /// Appends the places and the block of a tuple symbol that has some column.
    fn add_present(&mut self, alloc: Global, old: &OldSymbol) -> Result<(), AllocError>
        requires few { old.now.places ≤ 8 }
        requires readable { IsReadable old.now.list.now old.now.number old.now.places }
        requires room { length self.old.views.views.items + 8 ≤ 2 ^ 32 }
        requires tight { AreTightViews old.now.list.now.views.items self.old.views.keys
            self.old.views.views.items }
        ensures starts { self.new.starts.items ≡ self.old.starts.items }
        ensures more { OnOk result (HasMore old.now.list.now.views.items self.old.views
            self.new.views self.old.numbers.items self.new.numbers.items self.old.blocks
            self.new.blocks) }
        ensures own { OnOk result (IsTightSymbol old.now.list.now old.now.number old.now.places
            self.new.views.views.items self.new.numbers.items (length self.old.numbers.items)
            self.new.blocks (length self.old.blocks)) }
    {
        let list = old.list;
        let counts = old.counts();
        let views = old.views();
        let one = OneBlock {
            blocks: &list.blocks,
            block: old.number,
            counts: &counts[..old.places],
        };
        let firsts = add_places(
            alloc,
            &one,
            list.views.as_slice(),
            &views[..old.places],
            &mut self.views,
            &mut self.numbers,
        )?;
        let firsts = Firsts {
            lists: firsts.as_slice(),
        };
        firsts.add_block(&list.blocks, old.number, &mut self.blocks)
    }

    /// Appends the places and the block of the next tuple symbol; the block of no columns is never read.
    fn add_symbol(
        &mut self,
        alloc: Global,
        sig: &Signature,
        symbol: &TupleSym,
        list: &ClassList,
    ) -> Result<(), AllocError>
        requires placed { (n : ℕ) × HasTightSymbols sig.now (length symbol.now) n list.now self.old
            × (symbol.now ≡ symbol_at sig.now (length symbol.now) n) × (8 * (n + 1) ≤ 2 ^ 32) }
        requires base { list.now.base ≡ length sig.now + 1 }
        requires small { list.now.base ^ length symbol.now < 2 ^ 64 }
        requires readable { IsPresent symbol.now
            → IsReadable list.now (number_of list.now.base symbol.now)
            (symbol_kids sig.now symbol.now) }
        ensures { OnOk result ((n : ℕ) → HasTightSymbols sig.now (length symbol.now) n list.now
            self.old
            → symbol.now ≡ symbol_at sig.now (length symbol.now) n
            → HasTightSymbols sig.now (length symbol.now) (n + 1) list.now self.new) }
    {
        self.starts.push(self.numbers.len())?;
        if !is_present(symbol) {
            return self.blocks.add(&[]);
        }
        let old = OldSymbol {
            list,
            number: list.number(symbol),
            places: kid_count(sig, symbol),
        };
        self.add_present(alloc, &old)
    }

    /// The parts for all tuple symbols.
    pub fn of_all(
        alloc: Global,
        sig: &Signature,
        columns: usize,
        list: &ClassList,
    ) -> Result<TightParts, AllocError>
        requires narrow { columns ≤ 16 }
        requires count { length list.now.starts.items ≡ (length sig.now + 1) ^ columns }
        requires few { 8 * length list.now.starts.items ≤ 2 ^ 32 }
        requires readable { AreReadable sig.now columns list.now }
        ensures { IfOk result (HasTightSymbols sig.now columns (length list.now.starts.items)
            list.now) }
    {
        let base = sig.len() + 1;
        let mut made = TightParts {
            views: TightViews::new(alloc),
            starts: Vec::with_capacity(alloc, list.starts.len())?,
            numbers: Vec::new(alloc),
            blocks: Blocks::new(alloc),
        };
        let mut symbol = TupleSym::absent(columns);
        'symbols: for _ in 0..list.starts.len() {
            made.add_symbol(alloc, sig, &symbol, list)?;
            symbol.to_next(base);
        }
        Ok(made)
    }
}
