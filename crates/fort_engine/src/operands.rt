//! The operands of a part: their answers and columns, by their numbers.
ghost use Rattle.std.specs.Prelude.{◌≡◌, ◌<◌, List, length, slice_index_or, None, Some};
ghost use Rattle.fort_theory.specs.Cores as theory;
ghost use Rattle.fort_parts.specs.PartColumns.{columns_of};
ghost use Rattle.fort_outline.specs.Outlines.{AreColumnsOf};

use crate::answer::Last;
use fort_outline::Outline;

/// An operand's answer, with its columns.
#[derive(Drop)]
pub(crate) struct Answered<'a> {
    pub(crate) columns: &'a [u32],
    pub(crate) answer: &'a Last,
}

/// The answer to an earlier part, which is kept.
pub(crate) fn kept_answer(kept: &[Option<Last>], part: usize) -> &Last
    requires within { part < length kept.now }
    requires there { slice_index_or kept.now part None ≡ None → ⊥ }
    ensures { slice_index_or kept.now part None ≡ Some result.now }
{
    match &kept[part] {
        Some(answer) => answer,
        None => unreachable!(),
    }
}

/// The answer to an earlier part, which is kept, with the part's columns.
pub(crate) fn kept_operand<'a>(
    outline: &'a Outline,
    kept: &'a [Option<Last>],
    part: usize,
) -> Answered<'a>
    requires within { part < length kept.now }
    requires there { slice_index_or kept.now part None ≡ None → ⊥ }
    requires listed { part < length outline.now.columns.items }
    ensures answer { slice_index_or kept.now part None ≡ Some result.answer.now }
    ensures columns { (parts : List theory.Core) → AreColumnsOf parts outline.now.columns.items
        → result.columns.now ≡ columns_of (slice_index_or parts part theory.True) }
{
    Answered {
        columns: outline.columns[part].as_slice(),
        answer: kept_answer(kept, part),
    }
}
