//! The closure of an index's rules: which right pattern reaches which left pattern.
ghost use Rattle.std.specs.Prelude.{◌≡◌, ◌↔◌, ◌<◌, ◌^◌, IfOk, IsTrue, Contains, length, map};
ghost use Rattle.fort_theory.specs.Patterns as theory;
ghost use Rattle.fort_theory.specs.Sides.{IsIndexOf, at_index};
ghost use Rattle.fort_terms.specs.PatternView.{as_pair, as_pattern};
ghost use Rattle.fort_relations.specs.RelView.{as_rel};
ghost use Rattle.fort_tree_automata.specs.PatternMoves.{IsClosedInOrder};
ghost use Rattle.fort_transducers.specs.AgttView.{NamesItsStates};
ghost use Rattle.fort_transducers.specs.RootSteps.{ArePlaces};
ghost use Rattle.fort_gtt_closure.specs.Reasons.{IsNumbered};
ghost use Rattle.fort_findings.specs.FindingView as findings;
ghost use Rattle.fort_context_closure.specs.ClosedAtoms.{ListsNone, ListsPasses};
ghost use Rattle.fort_context_closure.specs.ItemView.{as_items, as_why};
ghost use Rattle.fort_context_closure.specs.RuleLists.{ListsRules};
ghost use Rattle.fort_context_closure.specs.Closures.{IsClosureOf, IsTransducerOf};

use crate::relation::is_reduction;
use crate::rule_list::{RuleList, rules_of};
use fort_findings::{ClosureEntry, Reason};
use fort_gtt_closure::{Entry, Why, close};
use fort_relations::Rel;
use fort_terms::{Pattern, System, has_numbers};
use fort_transducers::Agtt;
use fort_tree_automata::{pattern_automaton, place};
use std::alloc::{AllocError, Global};

/// The closure of the rules of an index by which a relation about reductions is told; none for any other relation.
pub fn closure(
    alloc: Global,
    system: &System,
    index: u32,
    rel: Rel,
) -> Result<Vec<ClosureEntry>, AllocError>
    requires { IsIndexOf system.now.rules index }
    ensures passes { IfOk result (λ list. ListsPasses (as_rel rel)
        (at_index index system.now.rules) list.items) }
    ensures none { IfOk result (λ list. ListsNone (as_rel rel) list.items) }
{
    if !is_reduction(rel) {
        return Ok(Vec::new(alloc));
    }
    let list = rules_of(alloc, system, index, rel)?;
    closure_of(alloc, &list)
}

/// The closure of the transducer whose states are the patterns.
fn closure_of(alloc: Global, list: &RuleList) -> Result<Vec<ClosureEntry>, AllocError>
    requires { ListsRules (map as_pair list.now.rules.items) list.now }
    ensures { IfOk result (λ entries. IsClosureOf list.now entries.items) }
{
    let agtt = transducer(alloc, list)?;
    let closed = close(alloc, &agtt)?;
    let entries = listed(alloc, &closed.entries)?;
    Ok(entries)
}

/// The pairs of states as pairs of patterns.
fn listed(alloc: Global, entries: &[Entry]) -> Result<Vec<ClosureEntry>, AllocError>
    ensures { IfOk result (λ list. map findings.as_pair list.items ≡ as_items entries.now) }
{
    let mut list = Vec::with_capacity(alloc, entries.len())?;
    for entry in entries {
        list.push(ClosureEntry {
            p: entry.p,
            q: entry.q,
            why: reason(entry.why),
        })?;
    }
    Ok(list)
}

/// The reason in a certificate. An automaton of patterns has no silent moves.
fn reason(why: Why) -> Reason
    ensures { findings.as_why result ≡ as_why why }
{
    match why {
        Why::Any => Reason::Any,
        Why::Kids(_, _) | Why::SilentRight(_) | Why::SilentLeft(_) => Reason::Kids,
        Why::Pair(rule) => Reason::Rule(rule),
    }
}

/// The transducer of the rules' root steps. Lists of 2^32 rules or patterns or more, for which there are no numbers, are want of memory.
fn transducer(alloc: Global, list: &RuleList) -> Result<Agtt, AllocError>
    requires { ListsRules (map as_pair list.now.rules.items) list.now }
    ensures states { IfOk result (IsTransducerOf list.now) }
    ensures named { IfOk result NamesItsStates }
    ensures numbered { IfOk result IsNumbered }
{
    if !have_numbers(list) {
        return Err(AllocError);
    }
    let left = pattern_automaton(alloc, &list.lefts)?;
    let right = pattern_automaton(alloc, &list.rights)?;
    let pairs = places(alloc, &list.rules, &list.lefts, &list.rights)?;
    Ok(Agtt { left, right, pairs })
}

/// Whether the rules and the patterns of both sides have numbers.
fn have_numbers(list: &RuleList) -> bool
    ensures { IsTrue result ↔ ((length list.now.lefts.items < 2 ^ 32)
        × (length list.now.rights.items < 2 ^ 32) × (length list.now.rules.items < 2 ^ 32)) }
{
    has_numbers(list.lefts.len()) && has_numbers(list.rights.len()) && has_numbers(list.rules.len())
}

/// The places of the two sides of each rule.
fn places(
    alloc: Global,
    rules: &[(Pattern, Pattern)],
    lefts: &[Pattern],
    rights: &[Pattern],
) -> Result<Vec<(u32, u32)>, AllocError>
    requires left_closed { IsClosedInOrder (map as_pattern lefts.now) }
    requires right_closed { IsClosedInOrder (map as_pattern rights.now) }
    requires left_few { length lefts.now < 2 ^ 32 }
    requires right_few { length rights.now < 2 ^ 32 }
    requires among { (pair : theory.Pair) → Contains (map as_pair rules.now) pair →
        Contains (map as_pattern lefts.now) pair.0 × Contains (map as_pattern rights.now) pair.1 }
    ensures { IfOk result (λ ps. ArePlaces (map as_pattern lefts.now)
        (map as_pattern rights.now) (map as_pair rules.now) ps.items) }
{
    let mut pairs = Vec::new(alloc);
    for rule in rules {
        pairs.push((place(lefts, &rule.0), place(rights, &rule.1)))?;
    }
    Ok(pairs)
}
