//! The outline of a core formula: its parts by numbers, with what deciding asks of each.
ghost use Rattle.std.specs.Prelude.{◌≡◌, IfOk};
ghost use Rattle.fort_formulas.specs.CoreView.{as_core};
ghost use Rattle.fort_outline.specs.Outlines.{IsOutlineOf};

use crate::columns::all_columns;
use crate::numbers::number_core;
use crate::root::Root;
use crate::uses::last_uses;
use fort_formulas::Core;
use indexmap::IndexSet;
use std::alloc::{AllocError, Global};

/// The parts of a core formula: its different subformulas, operands before their formula, in the order of their first places. All
/// lists have one item for each part, in that order.
#[derive(Drop)]
pub struct Outline {
    pub roots: Vec<Root>,
    /// The free numbers of each part, ascending.
    pub columns: Vec<Vec<u32>>,
    /// The last part that needs the answer of each, or 0 where none does; the whole formula's is needed behind all.
    pub last_uses: Vec<usize>,
    /// The number of the whole formula.
    pub whole: usize,
}

impl Outline {
    /// It fails for want of memory alone.
    pub fn new(alloc: Global, core: &Core) -> Result<Outline, AllocError>
        ensures { IfOk result (IsOutlineOf (as_core core.now)) }
    {
        let mut found = IndexSet::new(alloc);
        let whole = number_core(alloc, core, &mut found)?;
        let roots = listed(alloc, found)?;
        let columns = all_columns(alloc, &roots)?;
        let last_uses = last_uses(alloc, &roots, whole)?;
        Ok(Outline {
            roots,
            columns,
            last_uses,
            whole,
        })
    }
}

/// The roots in their order.
fn listed(alloc: Global, found: IndexSet<Root>) -> Result<Vec<Root>, AllocError>
    ensures { IfOk result (λ roots. roots.items ≡ found.keys) }
{
    found.into_iter().collect(alloc)
}
