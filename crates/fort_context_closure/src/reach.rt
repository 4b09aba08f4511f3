//! A closure in rows of bits, as labels have them.
ghost use Rattle.std.specs.Prelude.{◌≡◌, ℕ, ◌+◌, ◌*◌, ◌-◌, ◌<◌, ◌≤◌, ◌^◌, ◌&&◌, ◌||◌, ◌==◌, map, length, IfOk, vec_items};
ghost use Rattle.fort_label_bits.specs.RowBits.{bit_of};
ghost use Rattle.fort_context_closure.specs.ClosedAtoms.{numbers_of};
ghost use Rattle.fort_context_closure.specs.ReachRows.{HasRows, IsReach, MarksEntry};
ghost use Rattle.fort_label_bits.specs.BitRowLists.{AreClear, SetsBit, row_in};

use fort_findings::ClosureEntry;
use fort_label_bits::{clear_rows, mark};
use std::alloc::{AllocError, Global};

/// For each right pattern the left patterns that it reaches, and for each left pattern the right patterns that reach it: rows with the
/// bits that these have in a label.
#[derive(Drop)]
pub(crate) struct Reach {
    pub firsts: Vec<Vec<u64>>,
    pub seconds: Vec<Vec<u64>>,
}

/// The rows of a closure over as many left and right patterns.
pub(crate) fn reach_of(
    alloc: Global,
    lefts: usize,
    rights: usize,
    entries: &[ClosureEntry],
) -> Result<Reach, AllocError>
    requires left { lefts < 2 ^ 32 }
    requires right { rights < 2 ^ 32 }
    ensures { IfOk result (IsReach lefts rights (numbers_of entries.now)) }
{
    let width = 1 + (lefts + rights + 63) / 64;
    let mut reach = Reach {
        firsts: clear_rows(alloc, rights, width)?,
        seconds: clear_rows(alloc, lefts, width)?,
    };
    for entry in entries {
        mark_entry(&mut reach, lefts, *entry);
    }
    Ok(reach)
}

/// An entry of other numbers says nothing of these patterns.
fn mark_entry(reach: &mut Reach, lefts: usize, entry: ClosureEntry)
    requires left { lefts < 2 ^ 32 }
    requires right { length reach.old.firsts.items < 2 ^ 32 }
    requires rows { HasRows lefts (length reach.old.firsts.items) reach.old }
    ensures { MarksEntry lefts reach.old entry reach.new }
{
    let right = entry.p as usize;
    let left = entry.q as usize;
    if right >= reach.firsts.len() {
        return;
    }
    if left >= lefts {
        return;
    }
    mark(&mut reach.firsts, right, left);
    mark(&mut reach.seconds, left, lefts + right);
}
