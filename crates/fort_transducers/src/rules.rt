//! The transducer of the root steps of a system.
ghost use Rattle.std.specs.Prelude.{◌≡◌, ◌↔◌, ◌<◌, ◌^◌, IfOk, IsTrue, Contains, length, map};
ghost use Rattle.fort_theory.specs.Trees.{Tree};
ghost use Rattle.fort_theory.specs.Patterns as theory;
ghost use Rattle.fort_theory.specs.PatternSteps.{PatternStepAt};
ghost use Rattle.fort_theory.specs.Sides.{at_index, IsIndexOf};
ghost use Rattle.fort_reachability.specs.Transducers.{Transduces};
ghost use Rattle.fort_terms.specs.PatternView.{as_pair, as_pattern};
ghost use Rattle.fort_tree_automata.specs.PatternMoves.{IsClosedInOrder};
ghost use Rattle.fort_transducers.specs.AgttView.{NamesItsStates, transducer_of};
ghost use Rattle.fort_transducers.specs.RootSteps.{ArePlaces, HasRootSteps};

use crate::agtt::Agtt;
use fort_terms::{Pattern, System, has_numbers};
use fort_tree_automata::{pattern_automaton, place};
use std::alloc::{AllocError, Global};

/// The transducer that relates the root steps of an index: its automata are those of the left and
/// of the right patterns, and its pair k is rule k, as the places of its sides. Lists of 2^32
/// patterns or more, for which there are no numbers, are want of memory.
pub fn root_steps(alloc: Global, system: &System, index: u32) -> Result<Agtt, AllocError>
    requires { IsIndexOf system.now.rules index }
    ensures named { IfOk result NamesItsStates }
    ensures states { IfOk result (HasRootSteps (at_index index system.now.rules)) }
    ensures steps { IfOk result (λ agtt. (s t : Tree) →
        Transduces system.now.signature (transducer_of agtt) s t ↔
        PatternStepAt system.now index s t) }
{
    let lefts = system.left_patterns(alloc, index)?;
    let rights = system.right_patterns(alloc, index)?;
    if !have_numbers(lefts.len(), rights.len()) {
        return Err(AllocError);
    }
    let left = pattern_automaton(alloc, &lefts)?;
    let right = pattern_automaton(alloc, &rights)?;
    let pairs = places(alloc, system.rules(index), &lefts, &rights)?;
    Ok(Agtt { left, right, pairs })
}

/// Whether so many left and right patterns have numbers.
fn have_numbers(lefts: usize, rights: usize) -> bool
    ensures { IsTrue result ↔ ((lefts < 2 ^ 32) × (rights < 2 ^ 32)) }
{
    has_numbers(lefts) && has_numbers(rights)
}

/// The places of the two sides of each rule.
fn places(
    alloc: Global,
    rules: &[(Pattern, Pattern)],
    lefts: &[Pattern],
    rights: &[Pattern],
) -> Result<Vec<(u32, u32)>, AllocError>
    requires left_closed { IsClosedInOrder (map as_pattern lefts.now) }
    requires right_closed { IsClosedInOrder (map as_pattern rights.now) }
    requires left_few { length lefts.now < 2 ^ 32 }
    requires right_few { length rights.now < 2 ^ 32 }
    requires among { (pair : theory.Pair) → Contains (map as_pair rules.now) pair →
        Contains (map as_pattern lefts.now) pair.0 × Contains (map as_pattern rights.now) pair.1 }
    ensures { IfOk result (λ ps. ArePlaces (map as_pattern lefts.now)
        (map as_pattern rights.now) (map as_pair rules.now) ps.items) }
{
    let mut pairs = Vec::new(alloc);
    for rule in rules {
        pairs.push((place(lefts, &rule.0), place(rights, &rule.1)))?;
    }
    Ok(pairs)
}
