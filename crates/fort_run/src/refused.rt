//! The reply to a refusal.
ghost use Rattle.std.specs.Prelude.{IfOk};
ghost use Rattle.fort_run.specs.RefusalReplies.{TellsRefusal};

use crate::reply::Reply;
use fort_questions::Refusal;
use std::alloc::AllocError;

/// The reply that is the line of a refusal.
pub fn refused_reply(refusal: Refusal) -> Result<Reply, AllocError>
    ensures { IfOk result (TellsRefusal refusal) }
{
    match refusal {
        Refusal::Memory => Err(AllocError),
        Refusal::Line(line) => Ok(Reply::refused(line)),
    }
}
