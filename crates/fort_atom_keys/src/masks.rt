//! The keys of labels of bits, by the labels' own patterns.
ghost use Rattle.fort_atom_keys.specs.KeysView.{AreMasksOf};

use fort_context_closure::{NormalBits, RelationBits};
use fort_mark_keys::{MarkKeys, Side};

/// Those of an atom that relates two terms.
pub(crate) fn relation_keys(bits: &RelationBits) -> MarkKeys<'_>
    ensures { AreMasksOf bits.now.atom result }
{
    let left = Side::new(bits.left_patterns(), bits.lefts());
    let right = Side::new(bits.right_patterns(), bits.rights());
    MarkKeys::related(bits.rel(), bits.arguments(), left, right)
}

/// Those of normal forms.
pub(crate) fn normal_keys(bits: &NormalBits) -> MarkKeys<'_>
    ensures { AreMasksOf bits.now result }
{
    MarkKeys::normal(Side::new(bits.patterns(), bits.lefts()))
}
