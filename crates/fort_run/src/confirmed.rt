//! What comes of a certificate of an open formula.
ghost use Rattle.std.specs.Prelude.{◌≡◌, List, IfOk};
ghost use Rattle.fort_theory.specs.Trees.{Tree};
ghost use Rattle.fort_steps.specs.OpenView.{as_open};
ghost use Rattle.fort_formulas.specs.CoreView.{as_core};
ghost use Rattle.fort_formulas.specs.FormulaView.{as_formula};
ghost use Rattle.fort_answers.specs.ConfirmAnswer as lines;
ghost use Rattle.fort_answers.specs.FormulaAnswer.{Open};
ghost use Rattle.fort_run.specs.Posed.{IsPosed, SettlesCore};
ghost use Rattle.fort_questions.specs.declared.question.Question.TheVariants.{Confirm};

use crate::rejection::rejected_line;
use crate::reply::Reply;
use crate::status::Status;
use crate::witness::witness_text;
use fort_formulas::{Core, Formula};
use fort_open_checker::{OpenChecker, Unconfirmed, nodes_dag};
use fort_questions::push_number;
use fort_steps::{Claim, OpenCertificate};
use fort_terms::System;
use std::alloc::{AllocError, Global};

/// The line for a node that is no entry over the nodes before it.
fn node_line(alloc: Global, form: u32) -> Result<Vec<u8>, AllocError>
    ensures { IfOk result (λ line. line.items ≡ lines.node_line form) }
{
    let mut line = Vec::from_slice(alloc, b"REJECTED form ")?;
    push_number(&mut line, form as usize)?;
    line.extend_from_slice(b" place 0 node")?;
    line.push(b'\n')?;
    Ok(line)
}

/// What comes of the certificate of an open formula, by its core formula.
pub fn confirmed(
    alloc: Global,
    system: &System,
    formula: &Formula,
    core: &Core,
    certificate: &OpenCertificate,
) -> Result<Reply, AllocError>
    requires { (terms : List Tree)
        × IsPosed Open (as_formula formula.now) system.now terms (as_core core.now) }
    ensures { IfOk result (SettlesCore Confirm system.now (as_open certificate.now)
        (as_core core.now) (as_formula formula.now)) }
{
    // Their clauses say that the system and its signature are lawful.
    let signature = system.signature();
    let _symbols = signature.len();
    let mut checker = OpenChecker::new(alloc, system, core, certificate)?;
    match checker.check() {
        Ok(Claim::Found) => {
            let dag = nodes_dag(alloc, &certificate.nodes)?;
            let first = b"CERTIFIED WITNESS\n";
            let text = witness_text(alloc, first, signature, formula, &dag)?;
            Ok(Reply::of(Status::Positive, text))
        }
        Ok(Claim::Empty) => Reply::line(alloc, Status::Positive, b"CERTIFIED NONE\n"),
        Err(Unconfirmed::Rejected(rejected)) => {
            Ok(Reply::of(Status::Negative, rejected_line(alloc, rejected)?))
        }
        Err(Unconfirmed::NoEntry { form }) => {
            Ok(Reply::of(Status::Negative, node_line(alloc, form)?))
        }
    }
}
