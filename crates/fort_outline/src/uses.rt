//! Which part needs which earlier part last.
ghost use Rattle.std.specs.Prelude.{◌≡◌, ℕ, ◌<◌, length, slice_index, IfOk, if◌then◌else◌};
ghost use Rattle.fort_outline.specs.Roots.{cores_of, HasOperandsBelow, AreInOrder, is_operand};
ghost use Rattle.fort_outline.specs.Numbered.{AreDistinct};
ghost use Rattle.fort_outline.specs.Outlines.{AreLastUses};

use crate::root::Root;
use std::alloc::{AllocError, Global};

/// Notes that part `k`, which has this root, needs its operands.
fn note_operands(root: &Root, k: usize, uses: &mut [usize])
    requires { HasOperandsBelow (length uses.old) root.now }
    ensures { (j : ℕ) → j < length uses.old → slice_index uses.new j
        ≡ (if is_operand j root.now then k else slice_index uses.old j) }
{
    match root {
        Root::True | Root::Leaf(_) => {}
        Root::Not(f) | Root::Exists(_, f) | Root::Infinite(_, f) => uses[*f] = k,
        Root::Binary(_, f, g) => {
            uses[*f] = k;
            uses[*g] = k;
        }
    }
}

/// For each part the last one that needs its answer, or 0 where none does; that of the whole formula, which is part `whole`, is needed to
/// the end.
pub(crate) fn last_uses(
    alloc: Global,
    roots: &[Root],
    whole: usize,
) -> Result<Vec<usize>, AllocError>
    requires order { AreInOrder roots.now }
    requires distinct { AreDistinct (cores_of roots.now) }
    requires within { whole < length roots.now }
    ensures { IfOk result (λ uses. AreLastUses (cores_of roots.now) whole uses.items) }
{
    let mut uses = vec![in alloc; 0usize; roots.len()]?;
    let all = uses.as_mut_slice();
    for k in 0..roots.len() {
        note_operands(&roots[k], k, all);
    }
    all[whole] = roots.len();
    Ok(uses)
}
