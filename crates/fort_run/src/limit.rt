//! The line of a limit, and the reply that has it.
ghost use Rattle.std.specs.Prelude.{◌≡◌, IfOk};
ghost use Rattle.fort_answers.specs.Lines as lines;
ghost use Rattle.fort_formulas.specs.KindView.{as_kind};
ghost use Rattle.fort_run.specs.Verdicts.{TellsFault};

use crate::reply::Reply;
use fort_engine::EngineFault;
use fort_formulas::Kind;
use fort_questions::push_number;
use std::alloc::{AllocError, Global};

/// The word for a kind of formula.
fn kind_word(kind: Kind) -> &'static [u8]
    ensures { result.now ≡ lines.kind_word (as_kind kind) }
{
    match kind {
        Kind::True => b"true",
        Kind::Eq => b"eq",
        Kind::Root => b"root",
        Kind::Below => b"below",
        Kind::Step => b"step",
        Kind::Par => b"par",
        Kind::Plus => b"plus",
        Kind::Star => b"star",
        Kind::Conv => b"conv",
        Kind::Rex => b"rex",
        Kind::Nf => b"nf",
        Kind::Is => b"is",
        Kind::Not => b"not",
        Kind::And => b"and",
        Kind::Or => b"or",
        Kind::Iff => b"iff",
        Kind::Exists => b"exists",
        Kind::Infinite => b"infinite",
    }
}

/// The line for part `k`, of this kind, over the cap.
pub fn limit_line(alloc: Global, k: usize, kind: Kind, cap: u32) -> Result<Vec<u8>, AllocError>
    ensures { IfOk result (λ line. line.items ≡ lines.limit_line k (as_kind kind) cap) }
{
    let mut line = Vec::from_slice(alloc, b"LIMIT ")?;
    push_number(&mut line, k)?;
    line.push(b' ')?;
    line.extend_from_slice(kind_word(kind))?;
    line.push(b' ')?;
    push_number(&mut line, cap as usize)?;
    line.push(b'\n')?;
    Ok(line)
}

/// The reply to a fault of deciding, which is over this cap or wants memory.
pub fn limit_reply(alloc: Global, fault: EngineFault, cap: u32) -> Result<Reply, AllocError>
    ensures { IfOk result (TellsFault cap fault) }
{
    match fault {
        EngineFault::Memory => Err(AllocError),
        EngineFault::Over(limit) => {
            let line = limit_line(alloc, limit.part, limit.kind, cap)?;
            Ok(Reply::limited(line, limit))
        }
    }
}
