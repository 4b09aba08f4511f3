//! The blocks of all tuple symbols.
ghost use Rattle.std.specs.Prelude.{◌≡◌, ℕ, ◌+◌, ◌<◌, ◌≤◌, ◌^◌, List, length, IfOk};
ghost use Rattle.fort_tables.specs.Entries.{Entry};
ghost use Rattle.fort_class_targets.specs.SymbolBlocks.{AreTold, HasBlocks};

use crate::place_leaders::PlaceLeaders;
use crate::view_numbers::ViewNumbers;
use fort_class_blocks::Blocks;
use fort_leading_tables::LeadingTargets;
use fort_target_lists::{ClassView, kid_count};
use fort_terms::Signature;
use fort_tuple_symbols::TupleSym;
use std::alloc::{AllocError, Global};

/// A block for each tuple symbol, in the order of their numbers.
pub(crate) fn symbol_blocks(
    alloc: Global,
    sig: &Signature,
    columns: usize,
    views: &[ClassView],
    places: &ViewNumbers,
    targets: &LeadingTargets,
) -> Result<Blocks, AllocError>
    requires narrow { columns ≤ 16 }
    requires count { length places.now.starts.items ≡ (length sig.now + 1) ^ columns }
    requires told { (es : List Entry) × (qs : List ℕ)
        × AreTold sig.now columns es qs targets.now views.now places.now.starts.items
        places.now.numbers.items }
    ensures { IfOk result (λ blocks. (es : List Entry) (qs : List ℕ)
        → AreTold sig.now columns es qs targets.now views.now places.now.starts.items
        places.now.numbers.items
        → HasBlocks sig.now columns (length places.now.starts.items) es qs views.now
        places.now.starts.items places.now.numbers.items blocks) }
{
    let base = sig.len() + 1;
    let mut blocks = Blocks::new(alloc);
    let mut symbol = TupleSym::absent(columns);
    for number in 0..places.starts.len() {
        let numbers = places.of(number, kid_count(sig, &symbol));
        let leaders = PlaceLeaders { views, numbers };
        leaders.add_block(&symbol, targets, &mut blocks)?;
        symbol.to_next(base);
    }
    Ok(blocks)
}
