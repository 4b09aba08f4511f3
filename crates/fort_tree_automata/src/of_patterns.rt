//! The automaton whose states are the patterns of a list.
ghost use Rattle.std.specs.Prelude.{◌≡◌, ◌↔◌, IsTrue, ℕ, ◌<◌, ◌^◌, ◌++◌, take, [], List, Contains, IfOk, OnOk, Some, ◌+◌, length, map};
ghost use Rattle.fort_theory.specs.Trees.{Tree};
ghost use Rattle.fort_theory.specs.Patterns as theory;
ghost use Rattle.fort_theory.specs.Patterns.{IsInstance};
ghost use Rattle.fort_theory.specs.PatternOrder.{AllAmong};
ghost use Rattle.fort_reachability.specs.TreeAutomata.{Takes};
ghost use Rattle.fort_terms.specs.PatternView.{as_pattern, as_patterns};
ghost use Rattle.fort_tree_automata.specs.NtaView.{NamesItsStates, automaton_of, moves_of, as_move};
ghost use Rattle.fort_tree_automata.specs.PatternMoves.{IsClosedInOrder, StandsAt, AllStandAt, AreMovesFor};

use crate::nta::{Move, Nta};
use fort_terms::Pattern;
use std::alloc::{AllocError, Global};

/// The automaton whose state i takes the instances of pattern i.
pub fn pattern_automaton(alloc: Global, patterns: &[Pattern]) -> Result<Nta, AllocError>
    requires closed { IsClosedInOrder (map as_pattern patterns.now) }
    requires numbered { length patterns.now < 2 ^ 32 }
    ensures named { IfOk result NamesItsStates }
    ensures states { IfOk result (λ nta. nta.states ≡ length patterns.now) }
    ensures any { IfOk result (λ nta. (q : ℕ) → (nta.any ≡ Some q) ↔
        StandsAt (map as_pattern patterns.now) q theory.Any) }
    ensures moves { IfOk result (λ nta. AreMovesFor (map as_pattern patterns.now) 0
        (map as_pattern patterns.now) (moves_of nta)) }
    ensures silent { IfOk result (λ nta. nta.silent.items ≡ []) }
    ensures instances { IfOk result (λ nta. (q : ℕ) (p : theory.Pattern) →
        StandsAt (map as_pattern patterns.now) q p →
        (t : Tree) → Takes (automaton_of nta) t q ↔ IsInstance p t) }
{
    let mut moves = Vec::new(alloc);
    for state in 0..patterns.len() {
        push_move(alloc, patterns, state as u32, &mut moves)?;
    }
    Ok(Nta {
        states: patterns.len() as u32,
        any: any_place(patterns),
        moves,
        silent: Vec::new(alloc),
    })
}

/// The place of `Any`, which is before every other pattern.
fn any_place(patterns: &[Pattern]) -> Option<u32>
    requires { IsClosedInOrder (map as_pattern patterns.now) }
    ensures { (q : ℕ) → (result ≡ Some q) ↔
        StandsAt (map as_pattern patterns.now) q theory.Any }
{
    if patterns.is_empty() {
        return None;
    }
    if is_any(&patterns[0]) { Some(0) } else { None }
}

fn is_any(pattern: &Pattern) -> bool
    ensures { IsTrue result ↔ (as_pattern pattern.now ≡ theory.Any) }
{
    match pattern {
        Pattern::Any => true,
        Pattern::App(_, _) => false,
    }
}

/// Adds the move to a pattern with a symbol.
fn push_move(
    alloc: Global,
    patterns: &[Pattern],
    state: u32,
    moves: &mut Vec<Move>,
) -> Result<(), AllocError>
    requires closed { IsClosedInOrder (map as_pattern patterns.now) }
    requires numbered { length patterns.now < 2 ^ 32 }
    requires there { state < length patterns.now }
    ensures { OnOk result (AreMovesFor (map as_pattern patterns.now) 0
        (map as_pattern (take state patterns.now)) (map as_move moves.old.items) →
        AreMovesFor (map as_pattern patterns.now) 0
        (map as_pattern (take (state + 1) patterns.now)) (map as_move moves.new.items)) }
{
    match &patterns[state as usize] {
        Pattern::Any => {}
        Pattern::App(sym, args) => moves.push(Move {
            sym: *sym,
            kids: places(alloc, patterns, args.as_slice())?,
            target: state,
        })?,
    }
    Ok(())
}

/// The places of some patterns in a list.
fn places(alloc: Global, patterns: &[Pattern], args: &[Pattern]) -> Result<Vec<u32>, AllocError>
    requires closed { IsClosedInOrder (map as_pattern patterns.now) }
    requires numbered { length patterns.now < 2 ^ 32 }
    requires among { AllAmong (map as_pattern patterns.now) (as_patterns args.now) }
    ensures { IfOk result (λ qs.
        AllStandAt (map as_pattern patterns.now) qs.items (as_patterns args.now)) }
{
    let mut states = Vec::new(alloc);
    for arg in args {
        states.push(place(patterns, arg))?;
    }
    Ok(states)
}

/// The place of a pattern in a list.
pub fn place(patterns: &[Pattern], pattern: &Pattern) -> u32
    requires closed { IsClosedInOrder (map as_pattern patterns.now) }
    requires numbered { length patterns.now < 2 ^ 32 }
    requires among { Contains (map as_pattern patterns.now) (as_pattern pattern.now) }
    ensures { StandsAt (map as_pattern patterns.now) result (as_pattern pattern.now) }
{
    match patterns.binary_search(pattern) {
        Ok(state) => state as u32,
        Err(_) => unreachable!(),
    }
}
