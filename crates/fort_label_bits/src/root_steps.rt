//! The rules with both their bits in a label, by the left sides whose bits are on.
ghost use Rattle.std.specs.Prelude.{◌≡◌, ℕ, ◌<◌, ◌≤◌, ◌^◌, length, map, vec_items, Contains, IfOk};
ghost use Rattle.std.specs.List.{list_any};
ghost use Rattle.fort_label_bits.specs.RootPlaces.{list_at};
ghost use Rattle.fort_label_bits.specs.RuleLefts.{AreUnderLefts, both_at, some_rule};
ghost use Rattle.fort_label_bits.specs.declared.rule_places.RulePlaces as places;

use crate::bits::{has_mark, skip_off};
use crate::rooted::{grow, push_in};
use crate::rule_places::{RulePlaces, rule_at};
use std::alloc::{AllocError, Global};

/// For each of so many left patterns, the places of the rules whose left side it is.
pub fn rules_under(
    alloc: Global,
    rules: &[RulePlaces],
    lefts: usize,
) -> Result<Vec<Vec<usize>>, AllocError>
    requires { (r : places.RulePlaces) → Contains rules.now r → r.left < lefts }
    ensures { IfOk result (λ under. AreUnderLefts rules.now (map vec_items under.items)) }
{
    let mut under = Vec::new(alloc);
    grow(alloc, &mut under, lefts)?;
    for (k, rule) in rules.iter().enumerate() {
        push_in(&mut under, rule.left as usize, k)?;
    }
    Ok(under)
}

/// The same as `some_rule`, where the bits of left sides stand before bit `base`: goes over the rules under those that are on.
pub fn some_marked(under: &[Vec<usize>], rules: &[RulePlaces], base: usize, label: &[u64]) -> bool
    requires base { base < 2 ^ 62 }
    requires inside { (r : places.RulePlaces) → Contains rules.now r → r.left < base }
    requires under { AreUnderLefts rules.now (map vec_items under.now) }
    ensures { result ≡ some_rule base rules.now label.now }
{
    let mut from = 0;
    'lefts: while from < base {
        let left = skip_off(label, from);
        if some_at(places_under(under, left), rules, base, label) {
            return true;
        }
        from = left + 1;
    }
    false
}

/// The places that are listed under a left pattern.
fn places_under(under: &[Vec<usize>], left: usize) -> &[usize]
    ensures { result.now ≡ list_at (map vec_items under.now) left }
{
    match under.get(left) {
        Some(places) => places.as_slice(),
        None => &[],
    }
}

/// Whether the label has both bits of a rule at one of these places.
fn some_at(places: &[usize], rules: &[RulePlaces], base: usize, label: &[u64]) -> bool
    requires base { base ≤ 2 ^ 62 }
    requires places { (k : ℕ) → Contains places.now k → k < length rules.now }
    ensures { result ≡ list_any (both_at base label.now rules.now) places.now }
{
    for place in places {
        let rule = rule_at(rules, *place);
        if has_mark(label, rule.left as usize) && has_mark(label, base + rule.right as usize) {
            return true;
        }
    }
    false
}
