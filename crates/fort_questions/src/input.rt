//! The system of an input with what stands behind it, or the line that refuses the input.
ghost use Rattle.std.specs.Prelude.{◌≡◌, ◌≤◌, ◌↔◌, [], ◌∷◌, codes, length, IsTrue, IfOk, IfErr};
ghost use Rattle.fort_theory.specs.Sides as theory;
ghost use Rattle.fort_theory.specs.Patterns.{pattern_system};
ghost use Rattle.fort_grammar.specs.Forms.{AreFormsOf};
ghost use Rattle.fort_grammar.specs.Declarations.{as_list, IsListOfWords};
ghost use Rattle.fort_grammar.specs.ProblemForms.{IsProblem};
ghost use Rattle.fort_answers.specs.InputAnswer.{input_limit, BeginsPlainly, IsInputRefused};
ghost use Rattle.fort_questions.specs.Inputs.{BeginsFor, IsReadFrom, IsReadBehind};
ghost use Rattle.fort_questions.specs.Questions.{as_tail};
ghost use Rattle.fort_questions.specs.Refusals.{Refuses};

use crate::question::Tail;
use crate::refusal::{Refusal, certificate_line, form_line, problem_line};
use fort_ari::{Problem, ProblemFault, read_problem};
use fort_sexpr::{Form, Forms};
use fort_steps::{Certificate, OpenCertificate};
use fort_terms::System;
use std::alloc::Global;

/// A system, and what stands behind it.
#[derive(Drop)]
pub struct Input {
    pub system: System,
    pub behind: Behind,
}

/// What stands behind a problem.
#[derive(Drop)]
pub enum Behind {
    Nothing,
    Certificate(Certificate),
    OpenCertificate(OpenCertificate),
}

/// Whether a form is `(format TRS)`.
fn is_plain_format(form: &Form) -> bool
    ensures { IsTrue result ↔ IsListOfWords form.now.bytes form.now.form
        (codes "format" ∷ codes "TRS" ∷ []) }
{
    match form.two() {
        Some((first, second)) => first.is_word(b"format") && second.is_word(b"TRS"),
        None => false,
    }
}

/// Whether the first form is `(format TRS)`, without a number of systems.
fn begins_plainly(forms: &Forms) -> bool
    ensures { IsTrue result ↔ BeginsPlainly forms.now.bytes (as_list forms.now.forms) }
{
    if forms.len() == 0 {
        return false;
    }
    is_plain_format(&forms.form(0))
}

/// Whether the forms begin as they have to where such a tail is wanted.
fn begins_for(tail: Tail, forms: &Forms) -> bool
    ensures { IsTrue result ↔ BeginsFor (as_tail tail) forms.now.bytes (as_list forms.now.forms) }
{
    match tail {
        Tail::Nothing | Tail::Certificate | Tail::OpenCertificate => true,
        Tail::NoRules => begins_plainly(forms),
    }
}

/// What stands behind a problem, or the line that refuses it.
fn read_behind(
    alloc: Global,
    tail: Tail,
    forms: &Forms,
    problem: &Problem,
) -> Result<Behind, Refusal>
    requires short { length forms.now.bytes ≤ input_limit }
    requires are { AreFormsOf forms.now.bytes forms.now.forms }
    requires begins { BeginsFor (as_tail tail) forms.now.bytes (as_list forms.now.forms) }
    ensures ok { IfOk result (λ behind. (s : theory.System)
        → IsProblem forms.now.bytes (as_list forms.now.forms) s problem.now.next
        → problem.now.system ≡ pattern_system s
        → IsReadBehind (as_tail tail) forms.now.bytes s behind) }
    ensures refused { IfErr result (λ refusal. (s : theory.System)
        → IsProblem forms.now.bytes (as_list forms.now.forms) s problem.now.next
        → problem.now.system ≡ pattern_system s
        → Refuses (IsInputRefused (as_tail tail) forms.now.bytes) refusal) }
{
    match tail {
        Tail::Nothing => {
            if (problem.next as usize) < forms.len() {
                let line = form_line(alloc, problem.next, b" bad form", b"")?;
                return Err(Refusal::Line(line));
            }
            Ok(Behind::Nothing)
        }
        Tail::Certificate => {
            let number = problem.system.number();
            match fort_certificate::read(alloc, forms, problem.next, number) {
                Ok(certificate) => Ok(Behind::Certificate(certificate)),
                Err(fault) => Err(Refusal::Line(certificate_line(alloc, fault)?)),
            }
        }
        Tail::OpenCertificate => match fort_certificate::read_open(alloc, forms, problem.next) {
            Ok(certificate) => Ok(Behind::OpenCertificate(certificate)),
            Err(fault) => Err(Refusal::Line(certificate_line(alloc, fault)?)),
        },
        Tail::NoRules => {
            let behind = problem.system.signature().len() + 1;
            if behind < forms.len() {
                let line = form_line(alloc, behind as u32, b" bad form", b"")?;
                return Err(Refusal::Line(line));
            }
            Ok(Behind::Nothing)
        }
    }
}

/// The input that these forms are.
pub fn read_input(alloc: Global, tail: Tail, forms: &Forms) -> Result<Input, Refusal>
    requires short { length forms.now.bytes ≤ input_limit }
    requires are { AreFormsOf forms.now.bytes forms.now.forms }
    ensures ok { IfOk result (IsReadFrom (as_tail tail) forms.now.bytes) }
    ensures refused { IfErr result (Refuses (IsInputRefused (as_tail tail) forms.now.bytes)) }
{
    if !begins_for(tail, forms) {
        let line = problem_line(alloc, &ProblemFault::NoFormat)?;
        return Err(Refusal::Line(line));
    }
    let problem = match read_problem(alloc, forms) {
        Ok(problem) => problem,
        Err(fault) => return Err(Refusal::Line(problem_line(alloc, &fault)?)),
    };
    let behind = read_behind(alloc, tail, forms, &problem)?;
    Ok(Input {
        system: problem.system,
        behind,
    })
}
