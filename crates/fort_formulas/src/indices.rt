//! The indices that a formula mentions.

ghost use Rattle.std.specs.Prelude.{[], ◌∷◌, IfSome, IfNone};
ghost use Rattle.fort_logic.specs.Mentions.{indices, AreWithin, IsFirstAbove};
ghost use Rattle.fort_formulas.specs.FormulaView.{as_formula};

use crate::surface::Formula;

/// The first index of the formula, from left to right, that is above this number. It takes no
/// memory.
pub fn index_above(formula: &Formula, number: u32) -> Option<u32>
    ensures first { IfSome result (IsFirstAbove number (indices (as_formula formula.now))) }
    ensures within { IfNone result (AreWithin number (indices (as_formula formula.now))) }
{
    match formula {
        Formula::True | Formula::False => None,
        Formula::Rel(_, _, _, index)
        | Formula::Nf(_, index)
        | Formula::Join(_, _, index)
        | Formula::Sn(_, index)
        | Formula::Macro(_, index) => above(*index, number),
        Formula::Rex(rex, _, _, _, _) => rex.index_above(number),
        Formula::Com => match above(1, number) {
            None => above(2, number),
            first => first,
        },
        Formula::Not(f) | Formula::Exists(_, f) | Formula::Forall(_, f) | Formula::Infinite(_, f) =>
            index_above(f.as_formula(), number),
        Formula::And(f, g) | Formula::Or(f, g) | Formula::Imp(f, g) | Formula::Iff(f, g) => {
            match index_above(f.as_formula(), number) {
                None => index_above(g.as_formula(), number),
                first => first,
            }
        }
    }
}

/// The index, where it is above the number.
fn above(index: u32, number: u32) -> Option<u32>
    ensures first { IfSome result (IsFirstAbove number (index ∷ [])) }
    ensures within { IfNone result (AreWithin number (index ∷ [])) }
{
    if index > number { Some(index) } else { None }
}
