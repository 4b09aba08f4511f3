//! The rules of a closure, by numbers.
ghost use Rattle.std.specs.Prelude.{◌≡◌, ◌↔◌, ◌<◌, IsTrue, IfOk};
ghost use Rattle.fort_theory.specs.Sides.{IsIndexOf, at_index};
ghost use Rattle.fort_terms.specs.BothWays.{both_ways as both_ways_lem};
ghost use Rattle.fort_findings.specs.FindingView.{as_which};
ghost use Rattle.fort_check_steps.specs.PairSteps.{HasPairRules, HasClosureRules};

use crate::pairs::PairRules;
use fort_findings::Which;
use fort_label_bits::{number_patterns, places_of_rules};
use fort_terms::System;
use std::alloc::{AllocError, Global};

/// The most rules that have a system of each of them both ways.
const MOST_RULES: usize = 4096;

/// The rules of an index, and the patterns of their sides. Lists of 2^32 patterns or more, for which there are no numbers, are want of
/// memory.
fn rules_of(alloc: Global, system: &System, index: u32) -> Result<PairRules, AllocError>
    requires { IsIndexOf system.now.rules index }
    ensures { IfOk result (HasPairRules (at_index index system.now.rules)) }
{
    let lefts = system.left_patterns(alloc, index)?;
    let rights = system.right_patterns(alloc, index)?;
    let left_numbers = number_patterns(alloc, &lefts)?;
    let right_numbers = number_patterns(alloc, &rights)?;
    let rules = places_of_rules(alloc, system.rules(index), &lefts, &rights)?;
    Ok(PairRules {
        rights: right_numbers,
        lefts: left_numbers,
        rules,
    })
}

/// Whether these are more rules than a system may have of an index that is taken both ways.
fn has_too_many(rules: usize) -> bool
    ensures { IsTrue result ↔ (4096 < rules) }
{
    rules > MOST_RULES
}

/// A system whose only index has the rules of this one, and then each from right to left. More rules than a system has are want of
/// memory.
fn both_ways(alloc: Global, system: &System, index: u32) -> Result<System, AllocError>
    requires { IsIndexOf system.now.rules index }
    ensures { IfOk result (λ s. s ≡ both_ways_lem system.now index) }
{
    if has_too_many(system.rules(index).len()) {
        return Err(AllocError);
    }
    system.both_ways(alloc, index)
}

/// The rules of a closure. More rules than a system has, or more patterns than there are numbers for, are want of memory.
pub fn closure_rules(
    alloc: Global,
    system: &System,
    which: Which,
    index: u32,
) -> Result<PairRules, AllocError>
    requires { IsIndexOf system.now.rules index }
    ensures { IfOk result (HasClosureRules system.now (as_which which) index) }
{
    match which {
        Which::Star => rules_of(alloc, system, index),
        Which::Conv => {
            let both = both_ways(alloc, system, index)?;
            rules_of(alloc, &both, 1)
        }
    }
}
