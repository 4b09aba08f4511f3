//! Answers: a status, a text, and a limit where one withholds a verdict.
ghost use Rattle.std.specs.Prelude.{◌≡◌, ◌<◌, ◌≤◌, ◌↔◌, None, Some, IfOk, IsSome};
ghost use Rattle.fort_answers.specs.Lines.{last_answer, limited, refused};
ghost use Rattle.fort_run.specs.StatusView.{code_of};

use crate::status::Status;
use fort_engine::Limit;
use std::alloc::{AllocError, Global};

/// What the program answers where neither memory nor a device withholds the answer.
#[derive(Drop)]
pub struct Reply {
    pub status: Status,
    /// All that is to be written.
    pub text: Vec<u8>,
    /// The part that is over the cap, and the tuples that show it.
    pub limit: Option<Limit>,
    ghost low: { code_of status ≤ last_answer },
    ghost shown: { IsSome limit ↔ (code_of status ≡ limited) },
}

impl Reply {
    /// One without a limit.
    pub fn of(status: Status, text: Vec<u8>) -> Reply
        requires { code_of status < limited }
        ensures status { result.status ≡ status }
        ensures text { result.text.items ≡ text.items }
        ensures limit { result.limit ≡ None }
    {
        Reply {
            status,
            text,
            limit: None,
        }
    }

    /// The same of a text that is copied.
    pub fn line(alloc: Global, status: Status, text: &[u8]) -> Result<Reply, AllocError>
        requires { code_of status < limited }
        ensures status { IfOk result (λ r. r.status ≡ status) }
        ensures text { IfOk result (λ r. r.text.items ≡ text.now) }
        ensures limit { IfOk result (λ r. r.limit ≡ None) }
    {
        Ok(Reply::of(status, Vec::from_slice(alloc, text)?))
    }

    /// The formula or the input is refused by this line.
    pub fn refused(line: Vec<u8>) -> Reply
        ensures status { code_of result.status ≡ refused }
        ensures text { result.text.items ≡ line.items }
        ensures limit { result.limit ≡ None }
    {
        Reply::of(Status::Refused, line)
    }

    /// A part of the formula is over the cap; the line tells which.
    pub fn limited(line: Vec<u8>, limit: Limit) -> Reply
        ensures status { code_of result.status ≡ limited }
        ensures text { result.text.items ≡ line.items }
        ensures limit { result.limit ≡ Some limit }
    {
        Reply {
            status: Status::Limited,
            text: line,
            limit: Some(limit),
        }
    }
}
