//! A made problem.
ghost use Rattle.std.specs.Prelude.{◌≡◌, ◌≤◌, IfOk};
ghost use Rattle.fort_theory.specs.Patterns.{pattern_system};
ghost use Rattle.fort_answers.specs.MadeProblem as made;

use crate::rules::{push_constant_rule, push_f_rule};
use crate::signature::made_signature;
use fort_terms::System;
use std::alloc::{AllocError, Global};

/// The made problem with so many constants.
pub fn made_system(alloc: Global, n: u32) -> Result<System, AllocError>
    requires low { 1 ≤ n }
    requires high { n ≤ 64 }
    ensures { IfOk result (λ s. s ≡ pattern_system (made.made_system n)) }
{
    let signature = made_signature(alloc, n)?;
    let mut system = System::new(alloc, signature, 1)?;
    for i in 0..n {
        push_constant_rule(alloc, &mut system, n, i)?;
    }
    push_f_rule(alloc, &mut system, n)?;
    Ok(system)
}
