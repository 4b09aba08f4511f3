//! The line that tells which form of a certificate fails.
ghost use Rattle.std.specs.Prelude.{◌≡◌, IfOk};
ghost use Rattle.fort_answers.specs.CheckAnswer as lines;
ghost use Rattle.fort_cert_checker.specs.OutcomeView.{as_reason};

use fort_cert_checker::Rejected;
use fort_check_steps::Reason;
use fort_questions::push_number;
use std::alloc::{AllocError, Global};

/// The word for a reason.
fn reason_word(reason: Reason) -> &'static [u8]
    ensures { result.now ≡ lines.reason_word (as_reason reason) }
{
    match reason {
        Reason::Due => b"due",
        Reason::Range => b"range",
        Reason::Unfounded => b"unfounded",
        Reason::Open => b"open",
        Reason::Target => b"target",
        Reason::Label => b"label",
        Reason::Short => b"short",
        Reason::Long => b"long",
        Reason::Class => b"class",
        Reason::Split => b"split",
        Reason::Count => b"count",
        Reason::Rank => b"rank",
        Reason::Cycle => b"cycle",
        Reason::Value => b"value",
        Reason::Verdict => b"verdict",
    }
}

/// The line for a form that fails, with the place in it and the reason.
pub fn rejected_line(alloc: Global, rejected: Rejected) -> Result<Vec<u8>, AllocError>
    ensures { IfOk result (λ line. line.items ≡ lines.rejected_line rejected.form
        rejected.place (as_reason rejected.reason)) }
{
    let mut line = Vec::from_slice(alloc, b"REJECTED form ")?;
    push_number(&mut line, rejected.form as usize)?;
    line.extend_from_slice(b" place ")?;
    push_number(&mut line, rejected.place as usize)?;
    line.push(b' ')?;
    line.extend_from_slice(reason_word(rejected.reason))?;
    line.push(b'\n')?;
    Ok(line)
}
