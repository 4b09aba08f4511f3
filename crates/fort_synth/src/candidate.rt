//! A system of a family: its rules at some places.
ghost use Rattle.std.specs.Prelude.{◌≡◌, ◌<◌, ◌≤◌, ◌+◌, ◌^◌, All, IfOk, OnOk, length, map};
ghost use Rattle.fort_theory.specs.Signatures.{HasConstant, IsGround};
ghost use Rattle.fort_theory.specs.Sides.{pushed_at, count_all, IsIndexOf};
ghost use Rattle.fort_theory.specs.Patterns.{FitsPattern, pattern_pair};
ghost use Rattle.fort_answers.specs.FamilySystems as families;
ghost use Rattle.fort_answers.specs.FamilySystems.{any_count, rule_of, side_from};
ghost use Rattle.fort_terms.specs.Limits.{most_system_rules};
ghost use Rattle.fort_terms.specs.PatternView.{as_pattern};
ghost use Rattle.fort_terms.specs.SideView.{as_side};
ghost use Rattle.fort_synth.specs.CandidateRules.{rules_at};
ghost use Rattle.fort_synth.specs.FamilyView.{as_family_rule};
ghost use Rattle.fort_synth.specs.SearchAnswers.{FitsRule, picked_system};

use fort_terms::{Pattern, RuleFault, Side, Sides, Signature, System, Term};
use std::alloc::{AllocError, Global};

/// The side with a variable in each place, the first with the number `next`, each further one with
/// the next number; `next` is then the number behind the last.
fn numbered_side(alloc: Global, pattern: &Pattern, next: &mut u32) -> Result<Side, AllocError>
    requires { next.old + any_count (as_pattern pattern.now) < 2 ^ 32 }
    ensures side { IfOk result (λ s. as_side s ≡ side_from next.old (as_pattern pattern.now)) }
    ensures next { OnOk result (next.new ≡ next.old + any_count (as_pattern pattern.now)) }
{
    match pattern {
        Pattern::Any => {
            let variable = *next;
            *next += 1;
            Ok(Side::Var(variable))
        }
        Pattern::App(sym, args) => {
            let mut sides = Vec::new(alloc);
            for arg in args.as_slice() {
                sides.push(numbered_side(alloc, arg, next)?)?;
            }
            Ok(Side::App(*sym, Sides::new(sides)))
        }
    }
}

/// The ground term as a side.
fn ground_side(alloc: Global, term: &Term) -> Result<Side, AllocError>
    ensures { IfOk result (λ s. as_side s ≡ families.ground_side term.now) }
{
    let mut sides = Vec::new(alloc);
    for kid in &term.kids {
        sides.push(ground_side(alloc, kid)?)?;
    }
    Ok(Side::App(term.sym, Sides::new(sides)))
}

/// Adds a rule of a family at the end.
fn push_rule(
    alloc: Global,
    system: &mut System,
    pattern: &Pattern,
    term: &Term,
) -> Result<(), AllocError>
    requires few { count_all system.old.rules < most_system_rules }
    requires index { IsIndexOf system.old.rules 1 }
    requires left_fits { FitsPattern system.old.signature (as_pattern pattern.now) }
    requires right_fits { IsGround system.old.signature term.now }
    requires places { any_count (as_pattern pattern.now) < 2 ^ 32 }
    ensures rules { OnOk result (system.new.rules ≡ pushed_at 1
        (pattern_pair (rule_of (as_pattern pattern.now, term.now))) system.old.rules) }
    ensures same { system.new.signature ≡ system.old.signature }
{
    let mut next = 0;
    let left = numbered_side(alloc, pattern, &mut next)?;
    let right = ground_side(alloc, term)?;
    match system.push(1, &left, &right) {
        Ok(()) => Ok(()),
        Err(RuleFault::Memory) => Err(AllocError),
        Err(RuleFault::LeftRepeats(_v)) => unreachable!(),
        Err(RuleFault::RightRepeats(_v)) => unreachable!(),
        Err(RuleFault::Shares(_v)) => unreachable!(),
    }
}

/// The system with the family's rules at these places, in this order.
pub(crate) fn candidate(
    alloc: Global,
    signature: &Signature,
    family: &[(Pattern, Term)],
    places: &[usize],
) -> Result<System, AllocError>
    requires constant { HasConstant signature.now }
    requires fits { All (FitsRule signature.now) (map as_family_rule family.now) }
    requires few { length places.now ≤ 4 }
    requires within { All (λ place. place < length family.now) places.now }
    ensures { IfOk result (λ s. s ≡ picked_system signature.now
        (rules_at (map as_family_rule family.now) places.now)) }
{
    let mut system = System::new(alloc, signature.copy(alloc)?, 1)?;
    for place in places {
        let (pattern, term) = &family[*place];
        push_rule(alloc, &mut system, pattern, term)?;
    }
    Ok(system)
}
