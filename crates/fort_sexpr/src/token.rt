//! What a byte begins, where neither a word nor a comment goes on.
ghost use Rattle.std.specs.Prelude.{IfOk, IfErr};
ghost use Rattle.fort_sexpr.specs.Tokens.{IsToken, IsFaultOfByte};

use crate::fault::SFault;
use crate::scan::{is_blank, is_word_byte};

/// The most lists that may be open at once.
pub(crate) const DEEPEST: usize = 200;

/// What begins at a byte.
#[derive(Clone, Copy)]
pub(crate) enum Token {
    Blank,
    Comment,
    Word,
    Open,
    Close,
}

/// What the byte at an offset begins where so many lists are open, or its fault.
pub(crate) fn token_of(byte: u8, at: usize, height: usize) -> Result<Token, SFault>
    ensures token { IfOk result (IsToken byte height) }
    ensures fault { IfErr result (IsFaultOfByte byte at height) }
{
    if is_blank(byte) {
        return Ok(Token::Blank);
    }
    if is_word_byte(byte) {
        return Ok(Token::Word);
    }
    match byte {
        b';' => Ok(Token::Comment),
        b'(' => {
            if height >= DEEPEST {
                return Err(SFault::TooDeep(at));
            }
            Ok(Token::Open)
        }
        b')' => {
            if height == 0 {
                return Err(SFault::ExtraClose(at));
            }
            Ok(Token::Close)
        }
        _ => Err(SFault::BadByte(at)),
    }
}
