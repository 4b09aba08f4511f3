//! What the top call answers.
ghost use Rattle.std.specs.Prelude.{◌≡◌, None};
ghost use Rattle.fort_answers.specs.Lines.{out_of_memory};
ghost use Rattle.fort_run.specs.StatusView.{code_of};

use crate::reply::Reply;
use crate::status::Status;
use fort_engine::Limit;

/// How a run ended.
#[derive(Drop)]
pub struct Outcome {
    /// 0 for YES, WITNESS, solutions, SYSTEM, a certificate, a sample and CERTIFIED, 1 for NO, NONE, no solutions, NO SYSTEM and REJECTED,
    /// 2 where the words are no request, 3 where the formula, the input or the family is refused, 4 for LIMIT, 5 for want of memory,
    /// 6 where a read and 7 where a write failed.
    pub status: u8,
    /// With 4, the part that is over the cap, and the tuples that show it.
    pub limit: Option<Limit>,
}

impl Outcome {
    pub(crate) fn of(status: Status) -> Outcome
        ensures status { result.status ≡ code_of status }
        ensures limit { result.limit ≡ None }
    {
        Outcome {
            status: status.code(),
            limit: None,
        }
    }

    /// That of a reply whose text was written.
    pub(crate) fn of_reply(reply: Reply) -> Outcome
        ensures status { result.status ≡ code_of reply.status }
        ensures limit { result.limit ≡ reply.limit }
    {
        Outcome {
            status: reply.status.code(),
            limit: reply.limit,
        }
    }

    /// What a run ends with that found no memory for its words.
    pub fn out_of_memory() -> Outcome
        ensures status { result.status ≡ out_of_memory }
        ensures limit { result.limit ≡ None }
    {
        Outcome::of(Status::OutOfMemory)
    }
}
