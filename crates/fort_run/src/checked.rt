//! What comes of a certificate.
ghost use Rattle.std.specs.Prelude.{◌≡◌, List, IfOk};
ghost use Rattle.fort_theory.specs.Trees.{Tree};
ghost use Rattle.fort_logic.specs.Formulas as logic;
ghost use Rattle.fort_steps.specs.CertificateView.{as_certificate};
ghost use Rattle.fort_formulas.specs.CoreView.{as_core};
ghost use Rattle.fort_answers.specs.CheckAnswer as lines;
ghost use Rattle.fort_answers.specs.FormulaAnswer.{Closed};
ghost use Rattle.fort_run.specs.Posed.{IsPosed, SettlesCore};
ghost use Rattle.fort_questions.specs.declared.question.Question.TheVariants.{Check};

use crate::rejection::rejected_line;
use crate::reply::Reply;
use crate::status::Status;
use fort_cert_checker::Checker;
use fort_formulas::Core;
use fort_steps::Certificate;
use fort_terms::System;
use std::alloc::{AllocError, Global};

/// The line of a certificate in order with this verdict.
fn certified_line(verdict: bool) -> &'static [u8]
    ensures { result.now ≡ lines.certified_line verdict }
{
    if verdict {
        b"CERTIFIED YES\n"
    } else {
        b"CERTIFIED NO\n"
    }
}

/// What comes of the certificate of a formula, by its core formula.
pub fn checked(
    alloc: Global,
    system: &System,
    core: &Core,
    certificate: &Certificate,
) -> Result<Reply, AllocError>
    requires { (f : logic.Formula) × (terms : List Tree)
        × IsPosed Closed f system.now terms (as_core core.now) }
    ensures { IfOk result (λ r. (f : logic.Formula)
        → SettlesCore Check system.now (as_certificate certificate.now) (as_core core.now) f r) }
{
    let mut checker = Checker::new(alloc, system, core, certificate)?;
    match checker.check() {
        Ok(verdict) => Reply::line(alloc, Status::Positive, certified_line(verdict)),
        Err(rejected) => Ok(Reply::of(Status::Negative, rejected_line(alloc, rejected)?)),
    }
}
