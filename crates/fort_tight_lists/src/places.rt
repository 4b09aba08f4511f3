//! The places under a tuple symbol, their classes renumbered.
ghost use Rattle.std.specs.Prelude.{◌≡◌, ℕ, ◌+◌, ◌<◌, ◌≤◌, ◌^◌, List, map, vec_items, length, slice_index, IfOk, OnOk};
ghost use Rattle.fort_class_blocks.specs.Blocks.{counts_at};
ghost use Rattle.fort_tight_lists.specs.TightViews.{AreTightViews};
ghost use Rattle.fort_tight_lists.specs.TightPlaces.{HasTightPlaces};

use crate::slices::OneBlock;
use crate::tight_views::TightViews;
use fort_target_lists::ClassView;
use std::alloc::{AllocError, Global};

/// Appends the numbers of the renumbered views of a tuple symbol's places, whose old views are these; answers the first classes of each
/// place.
pub(crate) fn add_places(
    alloc: Global,
    one: &OneBlock,
    views: &[ClassView],
    olds: &[u32],
    tight: &mut TightViews,
    numbers: &mut Vec<u32>,
) -> Result<Vec<Vec<u32>>, AllocError>
    requires block { one.now.block < length one.now.blocks.now }
    requires counts { counts_at one.now.blocks.now one.now.block ≡ one.now.counts.now }
    requires few { length one.now.counts.now ≤ 8 }
    requires places { length olds.now ≡ length one.now.counts.now }
    requires views { (j : ℕ) → j < length olds.now → slice_index olds.now j < length views.now }
    requires room { length tight.old.views.items + 8 ≤ 2 ^ 32 }
    requires tight { AreTightViews views.now tight.old.keys tight.old.views.items }
    ensures tight { OnOk result (AreTightViews views.now tight.new.keys tight.new.views.items) }
    ensures places { IfOk result (λ firsts. HasTightPlaces one.now.blocks.now one.now.block
        one.now.counts.now views.now tight.old.views.items tight.new.views.items olds.now
        numbers.old.items numbers.new.items (map vec_items firsts.items) (length olds.now)) }
{
    let mut firsts = Vec::with_capacity(alloc, olds.len())?;
    for place in 0..olds.len() {
        let made = one.renumbered(alloc, place)?;
        numbers.push(tight.number_of(alloc, views, olds[place], &made)?)?;
        firsts.push(made.firsts)?;
    }
    Ok(firsts)
}
