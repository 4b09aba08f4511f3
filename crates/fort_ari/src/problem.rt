//! Reads a problem.
ghost use Rattle.std.specs.Prelude.{◌≡◌, ◌<◌, ◌^◌, ℕ, IfOk, IfErr, IfSome, IfNone, IsErrOf};
ghost use Rattle.fort_theory.specs.Signatures.{HasConstant};
ghost use Rattle.fort_theory.specs.Sides as theory;
ghost use Rattle.fort_theory.specs.Patterns.{pattern_system};
ghost use Rattle.fort_grammar.specs.Declarations.{as_list};
ghost use Rattle.fort_grammar.specs.ProblemForms.{IsProblem, IsFirstProblemFault};
ghost use Rattle.fort_sexpr.specs.FormView.{form_count};
ghost use Rattle.fort_ari.specs.declared.fault.ProblemFault.TheVariants.{Memory};
ghost use Rattle.fort_ari.specs.Faults.{as_fault};
ghost use Rattle.fort_ari.specs.Parts.{BeginsWithFormat};
ghost use Rattle.fort_ari.specs.Reading.{AreDeclared, IsFaultlessSoFar};

use crate::declaration::{Declarations, read_declarations};
use crate::fault::ProblemFault;
use crate::form::{begins, number_of_systems};
use crate::rule::push_rule;
use fort_sexpr::Forms;
use fort_terms::System;
use std::alloc::Global;

/// A system, and the number of the first form behind it.
#[derive(Drop)]
pub struct Problem {
    pub system: System,
    pub next: u32,
}

/// The number of systems, where the first form is the format.
fn number_in_format(forms: &Forms) -> Option<u32>
    ensures some { IfSome result (λ n.
        BeginsWithFormat forms.now.bytes (as_list forms.now.forms) n) }
    ensures none { IfNone result ((n : ℕ) →
        BeginsWithFormat forms.now.bytes (as_list forms.now.forms) n → ⊥) }
{
    if forms.len() == 0 {
        return None;
    }
    number_of_systems(&forms.form(0))
}

/// Reads the rules behind the declarations, of so many systems.
fn read_rules(
    alloc: Global,
    forms: &Forms,
    number: u32,
    declarations: Declarations,
) -> Result<Problem, ProblemFault>
    requires few { form_count forms.now.forms < 2 ^ 32 }
    requires format { BeginsWithFormat forms.now.bytes (as_list forms.now.forms) number }
    requires constant { HasConstant declarations.signature }
    requires declared { AreDeclared forms.now.bytes (as_list forms.now.forms)
        declarations.signature declarations.next }
    ensures ok { IfOk result (λ p. (s : theory.System) ×
        IsProblem forms.now.bytes (as_list forms.now.forms) s p.next ×
        (p.system ≡ pattern_system s)) }
    ensures fault { IfErr result (λ fault. IfSome (as_fault fault)
        (IsFirstProblemFault forms.now.bytes (as_list forms.now.forms))) }
    ensures memory { IsErrOf result Memory →
        IsFaultlessSoFar forms.now.bytes (as_list forms.now.forms) }
{
    let from = declarations.next;
    let mut system = System::new(alloc, declarations.signature, number)?;
    // a text of fewer than 2 ^ 32 bytes has fewer variables
    let _count = forms.len();
    let mut next = from;
    'rules: while begins(forms, next, b"rule") {
        push_rule(
            alloc,
            &mut system,
            &forms.form(next),
            next as u32,
            next - from,
        )?;
        next += 1;
    }
    Ok(Problem {
        system,
        next: next as u32,
    })
}

/// Reads the problem that the first forms are, or finds their first fault.
pub fn read_problem(alloc: Global, forms: &Forms) -> Result<Problem, ProblemFault>
    requires few { form_count forms.now.forms < 2 ^ 32 }
    ensures ok { IfOk result (λ p. (s : theory.System) ×
        IsProblem forms.now.bytes (as_list forms.now.forms) s p.next ×
        (p.system ≡ pattern_system s)) }
    ensures fault { IfErr result (λ fault. IfSome (as_fault fault)
        (IsFirstProblemFault forms.now.bytes (as_list forms.now.forms))) }
    ensures memory { IsErrOf result Memory →
        IsFaultlessSoFar forms.now.bytes (as_list forms.now.forms) }
{
    let Some(number) = number_in_format(forms) else {
        return Err(ProblemFault::NoFormat);
    };
    let declarations = read_declarations(alloc, forms)?;
    if !declarations.signature.has_constant() {
        return Err(ProblemFault::NoConstant);
    }
    read_rules(alloc, forms, number, declarations)
}
