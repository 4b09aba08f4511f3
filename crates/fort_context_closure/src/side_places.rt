//! Rules by the places of their left sides among the patterns.
ghost use Rattle.std.specs.Prelude.{◌≡◌, ◌<◌, ◌^◌, ℕ, IfOk, Contains, length, map, [], ◌∷◌};
ghost use Rattle.fort_theory.specs.Patterns as theory;
ghost use Rattle.fort_terms.specs.PatternView.{as_pair, as_pattern};
ghost use Rattle.fort_tree_automata.specs.PatternMoves.{IsClosedInOrder};
ghost use Rattle.fort_context_closure.specs.SidePlaces.{AreSidesOf, some_side as some_side_lem};

use fort_label_bits::{has_mark, place_of};
use fort_terms::Pattern;
use std::alloc::{AllocError, Global};

/// The places of the left sides, in the order of the rules.
pub(crate) fn places_of_sides(
    alloc: Global,
    rules: &[(Pattern, Pattern)],
    lefts: &[Pattern],
) -> Result<Vec<u32>, AllocError>
    requires few { length lefts.now < 2 ^ 32 }
    requires closed { IsClosedInOrder (map as_pattern lefts.now) }
    requires among { (pair : theory.Pair) → Contains (map as_pair rules.now) pair →
        Contains (map as_pattern lefts.now) pair.0 }
    ensures { IfOk result (λ places. AreSidesOf (map as_pattern lefts.now)
        (map as_pair rules.now) places.items) }
{
    let mut places = Vec::with_capacity(alloc, rules.len())?;
    for rule in rules {
        places.push(place_of(&rule.0, lefts))?;
    }
    Ok(places)
}

/// Whether the label has the bit of some left side.
pub(crate) fn some_side(sides: &[u32], label: &[u64]) -> bool
    ensures { result ≡ some_side_lem sides.now label.now }
{
    for side in sides {
        if has_mark(label, *side as usize) {
            return true;
        }
    }
    false
}
