//! The rules of an atom, with the patterns of their sides.
ghost use Rattle.std.specs.Prelude.{◌≡◌, ◌++◌, IfOk, OnOk, map};
ghost use Rattle.std.specs.List.Sorted.{IsStrictlySortedBy};
ghost use Rattle.std.specs.Ordering.{on};
ghost use Rattle.fort_theory.specs.Sides.{at_index, IsIndexOf};
ghost use Rattle.fort_theory.specs.PatternOrder.{AreSubpatternsInOrder};
ghost use Rattle.fort_terms.specs.BothWays.{exchanged};
ghost use Rattle.fort_terms.specs.PatternKeys.{pattern_order};
ghost use Rattle.fort_terms.specs.PatternView.{as_pair, as_pattern};
ghost use Rattle.fort_terms.specs.Subpatterns.{HasMore};
ghost use Rattle.fort_relations.specs.RelView.{as_rel};
ghost use Rattle.fort_alike.specs.Atoms.{both_ways as both_ways_lem, pairs_for};
ghost use Rattle.fort_context_closure.specs.RuleLists.{ListsRules};

use fort_relations::Rel;
use fort_terms::{Pattern, System};
use std::alloc::{AllocError, Global};
use std::collections::BTreeSet;

/// Rules, the patterns that stand within their left sides, and those within their right ones.
#[derive(Drop)]
pub(crate) struct RuleList {
    pub rules: Vec<(Pattern, Pattern)>,
    pub lefts: Vec<Pattern>,
    pub rights: Vec<Pattern>,
}

/// The rules by which a relation is asked: those of the index, for a conversion each of them from right to left too, and none for an
/// equation.
pub(crate) fn rules_of(
    alloc: Global,
    system: &System,
    index: u32,
    rel: Rel,
) -> Result<RuleList, AllocError>
    requires { IsIndexOf system.now.rules index }
    ensures { IfOk result
        (ListsRules (pairs_for (as_rel rel) (at_index index system.now.rules))) }
{
    match rel {
        Rel::Eq => Ok(RuleList {
            rules: Vec::new(alloc),
            lefts: Vec::new(alloc),
            rights: Vec::new(alloc),
        }),
        Rel::Conv => both_ways(alloc, system, index),
        _ => one_way(alloc, system, index),
    }
}

fn one_way(alloc: Global, system: &System, index: u32) -> Result<RuleList, AllocError>
    requires { IsIndexOf system.now.rules index }
    ensures { IfOk result (ListsRules (at_index index system.now.rules)) }
{
    let mut rules = Vec::new(alloc);
    push_copies(alloc, system.rules(index), &mut rules)?;
    Ok(RuleList {
        rules,
        lefts: system.left_patterns(alloc, index)?,
        rights: system.right_patterns(alloc, index)?,
    })
}

/// The patterns of both sides are those of either side then.
fn both_ways(alloc: Global, system: &System, index: u32) -> Result<RuleList, AllocError>
    requires { IsIndexOf system.now.rules index }
    ensures { IfOk result (ListsRules (both_ways_lem (at_index index system.now.rules))) }
{
    let mut rules = Vec::new(alloc);
    push_copies(alloc, system.rules(index), &mut rules)?;
    push_exchanged(alloc, system.rules(index), &mut rules)?;
    Ok(RuleList {
        rules,
        lefts: all_patterns(alloc, system, index)?,
        rights: all_patterns(alloc, system, index)?,
    })
}

fn push_copies(
    alloc: Global,
    rules: &[(Pattern, Pattern)],
    all: &mut Vec<(Pattern, Pattern)>,
) -> Result<(), AllocError>
    ensures { OnOk result (map as_pair all.new.items ≡
        map as_pair all.old.items ++ map as_pair rules.now) }
{
    for (left, right) in rules {
        all.push((left.copy(alloc)?, right.copy(alloc)?))?;
    }
    Ok(())
}

fn push_exchanged(
    alloc: Global,
    rules: &[(Pattern, Pattern)],
    all: &mut Vec<(Pattern, Pattern)>,
) -> Result<(), AllocError>
    ensures { OnOk result (map as_pair all.new.items ≡
        map as_pair all.old.items ++ map exchanged (map as_pair rules.now)) }
{
    for (left, right) in rules {
        all.push((right.copy(alloc)?, left.copy(alloc)?))?;
    }
    Ok(())
}

/// The patterns within the left and the right sides of an index's rules, each once and in order.
fn all_patterns(alloc: Global, system: &System, index: u32) -> Result<Vec<Pattern>, AllocError>
    requires { IsIndexOf system.now.rules index }
    ensures left { IfOk result (λ ps. AreSubpatternsInOrder (map (λ pair. pair.0)
        (both_ways_lem (at_index index system.now.rules))) (map as_pattern ps.items)) }
    ensures right { IfOk result (λ ps. AreSubpatternsInOrder (map (λ pair. pair.1)
        (both_ways_lem (at_index index system.now.rules))) (map as_pattern ps.items)) }
{
    let mut found = BTreeSet::new(alloc);
    insert_all(system.left_patterns(alloc, index)?, &mut found)?;
    insert_all(system.right_patterns(alloc, index)?, &mut found)?;
    in_order(alloc, found)
}

fn insert_all(patterns: Vec<Pattern>, found: &mut BTreeSet<Pattern>) -> Result<(), AllocError>
    ensures { OnOk result (HasMore (map as_pattern patterns.items)
        (map as_pattern found.old.keys) (map as_pattern found.new.keys)) }
{
    for pattern in patterns {
        found.insert(pattern)?;
    }
    Ok(())
}

/// The patterns of a set as a list.
fn in_order(alloc: Global, found: BTreeSet<Pattern>) -> Result<Vec<Pattern>, AllocError>
    ensures patterns { IfOk result (λ ps. ps.items ≡ found.keys) }
    ensures ordered { IsStrictlySortedBy (on as_pattern pattern_order) found.keys }
{
    let mut patterns = Vec::with_capacity(alloc, found.len())?;
    for pattern in found {
        patterns.push(pattern)?;
    }
    Ok(patterns)
}
