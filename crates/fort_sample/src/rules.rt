//! The rules of a made problem.
ghost use Rattle.std.specs.Prelude.{◌≡◌, ◌+◌, ◌*◌, ◌%◌, ◌<◌, ◌≤◌, ◌^◌, IfOk, OnOk};
ghost use Rattle.fort_theory.specs.Sides.{pushed_at, count_all, IsIndexOf, FitsSide, IsLinearSeparated};
ghost use Rattle.fort_theory.specs.Patterns.{pattern_pair, pattern_system};
ghost use Rattle.fort_answers.specs.MadeProblem.{constant_side, f_side, made_system};
ghost use Rattle.fort_terms.specs.Limits.{most_system_rules};
ghost use Rattle.fort_terms.specs.SideView.{as_side};
ghost use Rattle.fort_sample.specs.RulesSoFar.{HasRulesSoFar};

use fort_terms::{RuleFault, Side, Sides, Sym, System};
use std::alloc::{AllocError, Global};

/// The constant with this number.
fn constant(alloc: Global, number: u32) -> Side
    requires { number < 2 ^ 16 }
    ensures { as_side result ≡ constant_side number }
{
    Side::App(Sym(number as u16), Sides::new(Vec::new(alloc)))
}

/// `f` of a side, behind `n` constants.
fn f_of(alloc: Global, n: u32, side: Side) -> Result<Side, AllocError>
    requires { n < 2 ^ 16 }
    ensures { IfOk result (λ s. as_side s ≡ f_side n (as_side side)) }
{
    Ok(Side::App(Sym(n as u16), Sides::new(vec![in alloc; side]?)))
}

/// The number of the constant to which constant `i` of `n` has a rule.
fn target(n: u32, i: u32) -> u32
    requires some { 1 ≤ n }
    requires small { i < 2 ^ 16 }
    ensures { result ≡ (i * i + 1) % n }
{
    let square = i * i;
    (square + 1) % n
}

/// Adds a rule of index 1 that is linear and variable-separated.
fn push(system: &mut System, left: &Side, right: &Side) -> Result<(), AllocError>
    requires few { count_all system.old.rules < most_system_rules }
    requires index { IsIndexOf system.old.rules 1 }
    requires left_fits { FitsSide system.old.signature (as_side left.now) }
    requires right_fits { FitsSide system.old.signature (as_side right.now) }
    requires separated { IsLinearSeparated
        (record { left = as_side left.now; right = as_side right.now }) }
    ensures rules { OnOk result (system.new.rules ≡ pushed_at 1 (pattern_pair
        (record { left = as_side left.now; right = as_side right.now })) system.old.rules) }
    ensures same { system.new.signature ≡ system.old.signature }
{
    match system.push(1, left, right) {
        Ok(()) => Ok(()),
        Err(RuleFault::Memory) => Err(AllocError),
        Err(RuleFault::LeftRepeats(_v)) => unreachable!(),
        Err(RuleFault::RightRepeats(_v)) => unreachable!(),
        Err(RuleFault::Shares(_v)) => unreachable!(),
    }
}

/// Adds the rule from constant `i` of `n`.
pub fn push_constant_rule(
    alloc: Global,
    system: &mut System,
    n: u32,
    i: u32,
) -> Result<(), AllocError>
    requires within { i < n }
    requires high { n ≤ 64 }
    requires so_far { HasRulesSoFar n i system.old }
    ensures { OnOk result (HasRulesSoFar n (i + 1) system.new) }
{
    let left = constant(alloc, i);
    let right = constant(alloc, target(n, i));
    push(system, &left, &right)
}

/// Adds the rule from two `f` in a row to the first of `n` constants.
pub fn push_f_rule(alloc: Global, system: &mut System, n: u32) -> Result<(), AllocError>
    requires low { 1 ≤ n }
    requires high { n ≤ 64 }
    requires so_far { HasRulesSoFar n n system.old }
    ensures { OnOk result (system.new ≡ pattern_system (made_system n)) }
{
    let inner = f_of(alloc, n, Side::Var(0))?;
    let left = f_of(alloc, n, inner)?;
    let right = constant(alloc, 0);
    push(system, &left, &right)
}
