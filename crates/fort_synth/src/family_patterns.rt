//! The patterns over a signature up to a height, in their order.
ghost use Rattle.std.specs.Prelude.{◌≡◌, ◌<◌, ◌≤◌, ◌++◌, map, length, IfOk, OnOk, IsErrOf};
ghost use Rattle.fort_theory.specs.Patterns.{At, MorePatterns};
ghost use Rattle.fort_terms.specs.PatternView.{as_pattern};
ghost use Rattle.fort_answers.specs.FamilyRules.{most_family_rules};
ghost use Rattle.fort_synth.specs.FamilyLists as lists;

use crate::family_rules::{FamilyFault, MOST_RULES};
use fort_terms::{Pattern, Patterns, Signature, Sym};
use std::alloc::{AllocError, Global};

/// The patterns over a signature of at most this height, in order. It gives
/// [`FamilyFault::TooLarge`] where they are more than 4,096, and [`FamilyFault::Memory`] for want
/// of memory.
pub fn patterns_up_to(
    alloc: Global,
    signature: &Signature,
    height: u32,
) -> Result<Vec<Pattern>, FamilyFault>
    ensures patterns { IfOk result (λ ps. map as_pattern ps.items
        ≡ lists.low_patterns signature.now height) }
    ensures few { IfOk result (λ ps. length ps.items ≤ most_family_rules) }
    ensures too_large { IsErrOf result FamilyFault.TooLarge
        → most_family_rules < length (lists.low_patterns signature.now height) }
{
    let mut patterns = higher_patterns(alloc, signature, &[])?;
    for _ in 0..height {
        let next = higher_patterns(alloc, signature, &patterns)?;
        // No pattern is higher than these: no symbol has arguments.
        if next == patterns {
            return Ok(patterns);
        }
        patterns = next;
    }
    Ok(patterns)
}

/// `Any`, and each symbol with all lists of the items, in order; `TooLarge` where they are more
/// than 4,096.
fn higher_patterns(
    alloc: Global,
    signature: &Signature,
    items: &[Pattern],
) -> Result<Vec<Pattern>, FamilyFault>
    requires { length items.now ≤ most_family_rules }
    ensures patterns { IfOk result (λ ps. map as_pattern ps.items
        ≡ lists.higher_patterns signature.now (map as_pattern items.now)) }
    ensures few { IfOk result (λ ps. length ps.items ≤ most_family_rules) }
    ensures too_large { IsErrOf result FamilyFault.TooLarge → most_family_rules
        < length (lists.higher_patterns signature.now (map as_pattern items.now)) }
{
    let mut patterns = Vec::new(alloc);
    patterns.push(Pattern::Any)?;
    for number in 0..signature.len() {
        let sym = Sym(number as u16);
        let lists = argument_lists(alloc, items, signature.arity(sym))?;
        if patterns.len() + lists.len() > MOST_RULES {
            return Err(FamilyFault::TooLarge);
        }
        push_applications(sym, lists, &mut patterns)?;
    }
    Ok(patterns)
}

/// Adds the symbol with each of these lists.
fn push_applications(
    sym: Sym,
    lists: Vec<Patterns>,
    patterns: &mut Vec<Pattern>,
) -> Result<(), AllocError>
    ensures { OnOk result (map as_pattern patterns.new.items
        ≡ map as_pattern patterns.old.items ++ map (λ ps. At sym.0 ps) lists.items) }
{
    for args in lists {
        patterns.push(Pattern::App(sym, args))?;
    }
    Ok(())
}

/// The lists of so many of the items, in lexicographic order; `TooLarge` where they are more than
/// 4,096.
fn argument_lists(alloc: Global, items: &[Pattern], count: u8) -> Result<Vec<Patterns>, FamilyFault>
    requires { length items.now ≤ most_family_rules }
    ensures lists { IfOk result (λ ls. ls.items
        ≡ lists.argument_lists count (map as_pattern items.now)) }
    ensures few { IfOk result (λ ls. length ls.items ≤ most_family_rules) }
    ensures too_large { IsErrOf result FamilyFault.TooLarge → most_family_rules
        < length (lists.argument_lists count (map as_pattern items.now)) }
{
    let mut lists = Vec::new(alloc);
    lists.push(Patterns::new(Vec::new(alloc)))?;
    for _ in 0..count {
        if items.len() * lists.len() > MOST_RULES {
            return Err(FamilyFault::TooLarge);
        }
        lists = longer_lists(alloc, items, &lists)?;
    }
    Ok(lists)
}

/// Each of the items before each of the lists, in order.
fn longer_lists(
    alloc: Global,
    items: &[Pattern],
    rests: &[Patterns],
) -> Result<Vec<Patterns>, AllocError>
    ensures { IfOk result (λ ls. ls.items
        ≡ lists.longer_lists (map as_pattern items.now) rests.now) }
{
    let mut longer = Vec::new(alloc);
    for first in items {
        push_lists(alloc, first, rests, &mut longer)?;
    }
    Ok(longer)
}

/// Adds this pattern before each of the lists.
fn push_lists(
    alloc: Global,
    first: &Pattern,
    rests: &[Patterns],
    longer: &mut Vec<Patterns>,
) -> Result<(), AllocError>
    ensures { OnOk result (longer.new.items
        ≡ longer.old.items ++ map (λ ps. MorePatterns (as_pattern first.now) ps) rests.now) }
{
    for rest in rests {
        longer.push(longer_list(alloc, first, rest)?)?;
    }
    Ok(())
}

/// This pattern before the list.
fn longer_list(alloc: Global, first: &Pattern, rest: &Patterns) -> Result<Patterns, AllocError>
    ensures { IfOk result (λ ps. ps ≡ MorePatterns (as_pattern first.now) rest.now) }
{
    let mut items = Vec::new(alloc);
    items.push(first.copy(alloc)?)?;
    for item in rest.as_slice() {
        items.push(item.copy(alloc)?)?;
    }
    Ok(Patterns::new(items))
}
