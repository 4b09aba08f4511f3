//! Rules by the places of their sides among the patterns.
ghost use Rattle.std.specs.Prelude.{◌≡◌, ◌<◌, ◌^◌, ◌≤◌, IfOk, Contains, length, map, get_or, [], ◌∷◌};
ghost use Rattle.fort_theory.specs.Patterns as theory;
ghost use Rattle.fort_terms.specs.PatternView.{as_pair, as_pattern};
ghost use Rattle.fort_tree_automata.specs.PatternMoves.{IsClosedInOrder};
ghost use Rattle.fort_label_bits.specs.RulePlaces.{ArePlacesOf, no_rule};
ghost use Rattle.fort_label_bits.specs.RuleLefts.{some_rule as some_rule_lem};

use crate::bits::has_mark;
use crate::numbered::place_of;
use fort_terms::Pattern;
use std::alloc::{AllocError, Global};

/// The places of a rule's sides, in the list of the left and in that of the right patterns.
#[derive(Clone, Copy)]
pub struct RulePlaces {
    pub left: u32,
    pub right: u32,
}

/// The rules by places, in their order.
pub fn places_of_rules(
    alloc: Global,
    rules: &[(Pattern, Pattern)],
    lefts: &[Pattern],
    rights: &[Pattern],
) -> Result<Vec<RulePlaces>, AllocError>
    requires left_closed { IsClosedInOrder (map as_pattern lefts.now) }
    requires right_closed { IsClosedInOrder (map as_pattern rights.now) }
    requires left_few { length lefts.now < 2 ^ 32 }
    requires right_few { length rights.now < 2 ^ 32 }
    requires among { (pair : theory.Pair) → Contains (map as_pair rules.now) pair →
        Contains (map as_pattern lefts.now) pair.0 × Contains (map as_pattern rights.now) pair.1 }
    ensures { IfOk result (λ places. ArePlacesOf (map as_pattern lefts.now)
        (map as_pattern rights.now) (map as_pair rules.now) places.items) }
{
    let mut places = Vec::with_capacity(alloc, rules.len())?;
    for rule in rules {
        places.push(places_of_rule(rule, lefts, rights))?;
    }
    Ok(places)
}

fn places_of_rule(rule: &(Pattern, Pattern), lefts: &[Pattern], rights: &[Pattern]) -> RulePlaces
    requires left_closed { IsClosedInOrder (map as_pattern lefts.now) }
    requires right_closed { IsClosedInOrder (map as_pattern rights.now) }
    requires left_few { length lefts.now < 2 ^ 32 }
    requires right_few { length rights.now < 2 ^ 32 }
    requires left { Contains (map as_pattern lefts.now) (as_pattern rule.now.0) }
    requires right { Contains (map as_pattern rights.now) (as_pattern rule.now.1) }
    ensures { ArePlacesOf (map as_pattern lefts.now) (map as_pattern rights.now)
        (as_pair rule.now ∷ []) (result ∷ []) }
{
    RulePlaces {
        left: place_of(&rule.0, lefts),
        right: place_of(&rule.1, rights),
    }
}

/// Whether the label has both bits of some rule, those of right sides from bit `base` on.
pub fn some_rule(rules: &[RulePlaces], base: usize, label: &[u64]) -> bool
    requires { base ≤ 2 ^ 62 }
    ensures { result ≡ some_rule_lem base rules.now label.now }
{
    for rule in rules {
        if has_mark(label, rule.left as usize) && has_mark(label, base + rule.right as usize) {
            return true;
        }
    }
    false
}

/// The rule at a place.
pub fn rule_at(rules: &[RulePlaces], place: usize) -> RulePlaces
    requires { place < length rules.now }
    ensures { result ≡ get_or rules.now place no_rule }
{
    rules[place]
}
