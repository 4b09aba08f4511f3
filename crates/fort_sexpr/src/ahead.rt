//! Looks over a piece of a text for its fault and the lists that open in it, and keeps nothing.
ghost use Rattle.std.specs.Prelude.{ℕ, ◌+◌, ◌<◌, ◌≤◌, ◌^◌, List, length, IfOk, IfErr};
ghost use Rattle.fort_sexpr.specs.Faults.{IsFirstFaultOf};
ghost use Rattle.fort_sexpr.specs.Tokens.{IsOfByte};
ghost use Rattle.fort_sexpr.specs.Ahead.{IsTally, IsByteAt, IsPieceAt};

use crate::fault::SFault;
use crate::token::{Token, token_of};

/// The tally of a text up to an offset.
#[derive(Clone, Copy)]
pub(crate) struct Tally {
    /// Whether a comment goes on.
    pub in_comment: bool,
    /// How many lists are open.
    pub height: usize,
    /// How many lists have opened.
    pub lists: usize,
}

/// The tally behind one more byte, which stands at this offset, or the fault there.
fn past(tally: Tally, byte: u8, at: usize) -> Result<Tally, SFault>
    requires size { at < 2 ^ 32 }
    requires few { tally.lists ≤ at }
    ensures tally { (text : List ℕ) → IsByteAt text at byte → IsTally text at tally
        → IfOk result (IsTally text (at + 1)) }
    ensures fault { (text : List ℕ) → IsByteAt text at byte → IsTally text at tally
        → IfErr result (IsFirstFaultOf text) }
    ensures byte { IfErr result IsOfByte }
    ensures few { IfOk result (λ next. next.lists ≤ at + 1) }
{
    let mut next = tally;
    if tally.in_comment {
        next.in_comment = byte != b'\n';
        return Ok(next);
    }
    match token_of(byte, at, tally.height)? {
        Token::Blank | Token::Word => {}
        Token::Comment => next.in_comment = true,
        Token::Open => {
            next.height += 1;
            next.lists += 1;
        }
        Token::Close => next.height -= 1,
    }
    Ok(next)
}

/// The tally at the end of a piece that begins at an offset, or the piece's fault.
pub(crate) fn look_over(tally: Tally, piece: &[u8], from: usize) -> Result<Tally, SFault>
    requires size { from + length piece.now < 2 ^ 32 }
    requires few { tally.lists ≤ from }
    ensures tally { (text : List ℕ) → IsPieceAt text from piece.now → IsTally text from tally
        → IfOk result (IsTally text (from + length piece.now)) }
    ensures fault { (text : List ℕ) → IsPieceAt text from piece.now → IsTally text from tally
        → IfErr result (IsFirstFaultOf text) }
    ensures byte { IfErr result IsOfByte }
{
    let mut tally = tally;
    for i in 0..piece.len() {
        tally = past(tally, piece[i], from + i)?;
    }
    Ok(tally)
}
