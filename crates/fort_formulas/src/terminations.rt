//! The indices of which a formula says SN.

ghost use Rattle.std.specs.Prelude.{[], ◌∷◌, IfSome, IfNone};
ghost use Rattle.fort_theory.specs.RightGround.{HasRightGroundPairsAt};
ghost use Rattle.fort_logic.specs.Terminations.{terminations, AreAll, IsFirstWithout};
ghost use Rattle.fort_formulas.specs.FormulaView.{as_formula};

use crate::surface::Formula;
use fort_terms::System;

/// The first index of an SN of the formula, from left to right, of which a rule has a variable on
/// its right side. It takes no memory.
pub fn not_right_ground(formula: &Formula, system: &System) -> Option<u32>
    ensures first { IfSome result (IsFirstWithout (HasRightGroundPairsAt system.now)
        (terminations (as_formula formula.now))) }
    ensures right { IfNone result (AreAll (HasRightGroundPairsAt system.now)
        (terminations (as_formula formula.now))) }
{
    match formula {
        Formula::True
        | Formula::False
        | Formula::Rel(_, _, _, _)
        | Formula::Rex(_, _, _, _, _)
        | Formula::Nf(_, _)
        | Formula::Join(_, _, _)
        | Formula::Macro(_, _)
        | Formula::Com => None,
        Formula::Sn(_, index) => not_right_ground_at(*index, system),
        Formula::Not(f) | Formula::Exists(_, f) | Formula::Forall(_, f) | Formula::Infinite(_, f) =>
            not_right_ground(f.as_formula(), system),
        Formula::And(f, g) | Formula::Or(f, g) | Formula::Imp(f, g) | Formula::Iff(f, g) => {
            match not_right_ground(f.as_formula(), system) {
                None => not_right_ground(g.as_formula(), system),
                first => first,
            }
        }
    }
}

/// The index, where one of its rules has a variable on its right side.
fn not_right_ground_at(index: u32, system: &System) -> Option<u32>
    ensures first { IfSome result (IsFirstWithout (HasRightGroundPairsAt system.now)
        (index ∷ [])) }
    ensures right { IfNone result (AreAll (HasRightGroundPairsAt system.now) (index ∷ [])) }
{
    if index == 0 || index > system.number() {
        return None;
    }
    if system.right_ground(index) {
        None
    } else {
        Some(index)
    }
}
