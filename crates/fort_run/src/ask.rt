//! The commands that ask about a formula over an input: all but `sample`.
ghost use Rattle.std.specs.Prelude.{◌≡◌, ◌<◌, ◌≤◌, Some, length, IfOk, OnOk, IsErrOf};
ghost use Rattle.fort_grammar.specs.Forms.{AreFormsOf};
ghost use Rattle.fort_io.specs.Devices.{FaultCounted};
ghost use Rattle.fort_answers.specs.InputAnswer.{input_limit};
ghost use Rattle.fort_answers.specs.Requests.{Text};
ghost use Rattle.fort_answers.specs.Answer.{needed};
ghost use Rattle.fort_questions.specs.Accepted.{IsParsedAs, IsRead};
ghost use Rattle.fort_run.specs.Answered.{ReadsWhole};
ghost use Rattle.fort_questions.specs.Questions.{CanBePut, openness_of, request_for};
ghost use Rattle.fort_run.specs.Replies.{IsReplyTo, IsReplyTold};

use crate::refused::refused_reply;
use crate::reply::Reply;
use crate::status::Status;
use crate::verdict::verdict;
use fort_formula_parser::Parsed;
use fort_intake::{Unread, take_forms};
use fort_io::Source;
use fort_questions::{Question, accepted_formula, read_input, terms_of, text_line};
use fort_sexpr::Forms;
use std::alloc::{AllocError, Global};

/// The most bytes of an input.
const INPUT_LIMIT: usize = 67_108_864;

/// Why there is no reply.
#[derive(Clone, Copy, Debug, PartialEq, Eq)]
pub enum Stop {
    /// Want of memory.
    Memory,
    /// A read failed.
    Fault,
}

impl From<AllocError> for Stop {
    ghost use Rattle.std.specs.Prelude.{◌≡◌};
    ghost use Rattle.fort_run.specs.declared.ask.Stop.TheVariants.{Memory};

    ghost from_gives = { λ _ e. e ≡ Memory };

    fn from(_e: AllocError) -> Stop {
        Stop::Memory
    }
}

/// The reply to a question about a formula on the forms of an input.
fn reply_to_forms(
    alloc: Global,
    question: Question,
    parsed: &Parsed,
    forms: &Forms,
) -> Result<Reply, AllocError>
    requires short { length forms.now.bytes ≤ input_limit }
    requires are { AreFormsOf forms.now.bytes forms.now.forms }
    requires read { IsRead (openness_of question) parsed.now }
    requires possible { CanBePut question }
    ensures { IfOk result (λ r. (text : Text) → IsParsedAs (openness_of question) text parsed.now
        → IsReplyTo (Some (request_for question text)) forms.now.bytes r) }
{
    let input = match read_input(alloc, question.tail(), forms) {
        Ok(input) => input,
        Err(refusal) => return refused_reply(refusal),
    };
    match terms_of(alloc, parsed, &input.system) {
        Ok(terms) => verdict(alloc, question, &input, &parsed.formula, &terms),
        Err(refusal) => refused_reply(refusal),
    }
}

/// The reply to a question about a formula on what the source gives.
fn reply_to_formula<S: Source>(
    alloc: Global,
    question: Question,
    parsed: &Parsed,
    input: &mut S,
) -> Result<Reply, Stop>
    requires read { IsRead (openness_of question) parsed.now }
    requires possible { CanBePut question }
    ensures ok { IfOk result (λ r. (text : Text) → IsParsedAs (openness_of question) text parsed.now
        → IsReplyTold (Some (request_for question text)) (S.rest input.old) r) }
    ensures whole { OnOk result (ReadsWhole (S.rest input.old) (S.rest input.new)) }
    ensures fault { IsErrOf result Stop.Fault →
        FaultCounted (S.faults input.old) (S.faults input.new) }
    ensures reported { S.faults input.old < S.faults input.new → IsErrOf result Stop.Fault }
    ensures never_falls { S.faults input.old ≤ S.faults input.new }
{
    let forms = match take_forms(alloc, input, INPUT_LIMIT) {
        Ok(forms) => forms,
        Err(Unread::TooLong) => {
            let reply = Reply::line(alloc, Status::Refused, b"REFUSED input too long\n")?;
            return Ok(reply);
        }
        Err(Unread::Text(fault)) => return Ok(Reply::refused(text_line(alloc, &fault)?)),
        Err(Unread::Fault) => return Err(Stop::Fault),
        Err(Unread::Memory) => return Err(Stop::Memory),
    };
    Ok(reply_to_forms(alloc, question, parsed, &forms)?)
}

/// The reply to a question about the formula of a text, on what the source gives. Where the formula is refused, nothing is read.
pub fn ask<S: Source>(
    alloc: Global,
    question: Question,
    text: &str,
    input: &mut S,
) -> Result<Reply, Stop>
    requires { CanBePut question }
    ensures ok { IfOk result
        (IsReplyTold (Some (request_for question text.now)) (S.rest input.old)) }
    ensures whole { OnOk result (needed (Some (request_for question text.now)) →
        ReadsWhole (S.rest input.old) (S.rest input.new)) }
    ensures fault { IsErrOf result Stop.Fault →
        FaultCounted (S.faults input.old) (S.faults input.new) }
    ensures reported { S.faults input.old < S.faults input.new → IsErrOf result Stop.Fault }
    ensures asked { IsErrOf result Stop.Fault → needed (Some (request_for question text.now)) }
    ensures unread { (needed (Some (request_for question text.now)) → ⊥) →
        input.new ≡ input.old }
    ensures never_falls { S.faults input.old ≤ S.faults input.new }
{
    let parsed = match accepted_formula(alloc, question.openness(), text.as_bytes()) {
        Ok(parsed) => parsed,
        Err(refusal) => return Ok(refused_reply(refusal)?),
    };
    reply_to_formula(alloc, question, &parsed, input)
}
