//! Reads a rule.
ghost use Rattle.std.specs.Prelude.{◌≡◌, ◌+◌, ◌^◌, ◌≤◌, ◌<◌, ℕ, List, length, IfOk, IfErr, IfSome, IfNone, OnOk, IsErrOf, codes};
ghost use Rattle.fort_theory.specs.Signatures.{most_indices};
ghost use Rattle.fort_theory.specs.Sides.{count_all, IsIndexOf};
ghost use Rattle.fort_grammar.specs.Declarations.{IsHeaded};
ghost use Rattle.fort_grammar.specs.Forms as grammar;
ghost use Rattle.fort_grammar.specs.RuleForms.{HasSides, IsBadRule, most_rules};
ghost use Rattle.fort_terms.specs.Limits.{most_system_rules};
ghost use Rattle.fort_sexpr.specs.FormCode.{node_count};
ghost use Rattle.fort_ari.specs.declared.fault.ProblemFault.TheVariants.{Memory};
ghost use Rattle.fort_ari.specs.Faults.{as_fault};
ghost use Rattle.fort_ari.specs.Reading.{HasBothSides, PushesRule};
ghost use Rattle.fort_ari.specs.SideForms.{IsRightSide, PushesSides, HaveBadNames};

use crate::fault::ProblemFault;
use crate::form::number_named;
use crate::names::check_names;
use crate::side::{check_side, side_of};
use fort_sexpr::Form;
use fort_terms::{RuleFault, System};
use std::alloc::Global;

/// The most rules of a problem.
const MOST_RULES: usize = 4096;

/// The two sides of a rule, and its index.
#[derive(Drop)]
struct RuleForms<'a> {
    left: Form<'a>,
    right: Form<'a>,
    index: u32,
}

/// The sides and the index of a rule of one of so many systems.
fn sides_of<'a>(form: &Form<'a>, systems: u32) -> Option<RuleForms<'a>>
    requires headed { IsHeaded form.now.bytes (codes "rule") form.now.form }
    requires some { 1 ≤ systems }
    requires few { systems ≤ most_indices }
    ensures some { IfSome result (λ p.
        HasSides form.now.bytes systems form.now.form p.left.form p.right.form p.index) }
    ensures bytes { IfSome result (λ p.
        (p.left.bytes ≡ form.now.bytes) × (p.right.bytes ≡ form.now.bytes)) }
    ensures none { IfNone result ((left right : grammar.Form) (index : ℕ) →
        HasSides form.now.bytes systems form.now.form left right index → ⊥) }
{
    let list = form.elements()?;
    let index = match list.len() {
        3 => 1,
        5 => number_named(&list.get(3), &list.get(4), b":index")?,
        _ => return None,
    };
    if index > systems {
        return None;
    }
    Some(RuleForms {
        left: list.get(1),
        right: list.get(2),
        index,
    })
}

/// Adds a rule whose sides are right each by itself.
fn push_sides(
    alloc: Global,
    system: &mut System,
    rule: &RuleForms,
    number: u32,
) -> Result<(), ProblemFault>
    requires few { count_all system.old.rules < most_system_rules }
    requires small { node_count rule.now.left.form + node_count rule.now.right.form < 2 ^ 32 }
    requires index { IsIndexOf system.old.rules rule.now.index }
    requires same_bytes { rule.now.right.bytes ≡ rule.now.left.bytes }
    requires left { IsRightSide rule.now.left.bytes system.old.signature rule.now.left.form }
    requires right { IsRightSide rule.now.left.bytes system.old.signature rule.now.right.form }
    ensures ok { OnOk result (PushesSides rule.now.left.bytes rule.now.left.form
        rule.now.right.form rule.now.index system.old system.new) }
    ensures fault { IfErr result (λ fault. IfSome (as_fault fault)
        (HaveBadNames rule.now.left.bytes system.old.signature rule.now.left.form
        rule.now.right.form number)) }
{
    let signature = system.signature();
    let mut names = Vec::new(alloc);
    let left = side_of(alloc, signature, &rule.left, &mut names)?;
    let count = names.len();
    let right = side_of(alloc, signature, &rule.right, &mut names)?;
    check_names(alloc, &names[..count], &names[count..], number)?;
    match system.push(rule.index, &left, &right) {
        Ok(()) => Ok(()),
        Err(RuleFault::Memory) => Err(ProblemFault::Memory),
        // each variable has a number of its own
        Err(RuleFault::LeftRepeats(_v)) => unreachable!(),
        Err(RuleFault::RightRepeats(_v)) => unreachable!(),
        Err(RuleFault::Shares(_v)) => unreachable!(),
    }
}

/// Adds the rule of the form of this number, behind so many rules.
pub(crate) fn push_rule(
    alloc: Global,
    system: &mut System,
    form: &Form,
    number: u32,
    count: usize,
) -> Result<(), ProblemFault>
    requires headed { IsHeaded form.now.bytes (codes "rule") form.now.form }
    requires counted { count ≡ count_all system.old.rules }
    requires few { count ≤ most_rules }
    requires small { node_count form.now.form < 2 ^ 32 }
    ensures ok { IfOk result (λ _.
        PushesRule form.now.bytes form.now.form system.old system.new) }
    ensures few { IfOk result (λ _. count < most_rules) }
    ensures fault { IfErr result (λ fault. IfSome (as_fault fault)
        (IsBadRule form.now.bytes (length system.old.rules) system.old.signature count
        number form.now.form)) }
    ensures memory { IsErrOf result Memory → HasBothSides form.now.bytes
        (length system.old.rules) system.old.signature count form.now.form }
{
    if count == MOST_RULES {
        return Err(ProblemFault::TooManyRules);
    }
    let Some(sides) = sides_of(form, system.number()) else {
        return Err(ProblemFault::BadForm(number));
    };
    check_side(system.signature(), &sides.left, number)?;
    check_side(system.signature(), &sides.right, number)?;
    push_sides(alloc, system, &sides, number)
}
