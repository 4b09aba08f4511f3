//! The tokens of a text.

ghost use Rattle.std.specs.Prelude.{◌≡◌, ◌+◌, ◌^◌, ◌<◌, List, ℕ, IfOk, IfErr, IfSome, IfNone};
ghost use Rattle.fort_grammar.specs.Text.{is_blank};
ghost use Rattle.fort_formula_grammar.specs.TokenText.{counting, BeginsWithNoToken, AreTokensOf};
ghost use Rattle.fort_formula_grammar.specs.FormulaText.{IsFirstFormulaFault, AreShallow, OpensTooMany};
ghost use Rattle.fort_formula_parser.specs.Faults.{as_formula_fault};
ghost use Rattle.fort_formula_parser.specs.TokenView.{as_token, tokens_of};
ghost use Rattle.fort_formula_parser.specs.Spellings.{IsSpottedAt};
ghost use Rattle.fort_formula_parser.specs.Places.{HavePlaces};

use crate::fault::FFault;
use crate::ground::ground_at;
use crate::symbol::symbol_at;
use crate::token::{Lexeme, Spotted, Token};
use crate::word::word_at;
use std::alloc::Global;

/// The most parentheses that may be open at once.
const DEEPEST: usize = 200;

/// Whether a byte is a space, a tab, a CR or an LF.
fn is_blank(byte: u8) -> bool
    ensures { result ≡ is_blank byte }
{
    matches!(byte, b' ' | b'\t' | b'\r' | b'\n')
}

/// The longest token that begins a text, with so many ground terms before it.
fn token_at(text: &[u8], place: usize) -> Option<Spotted<'_>>
    ensures some { IfSome result (IsSpottedAt place text.now) }
    ensures none { IfNone result (BeginsWithNoToken text.now) }
{
    let Some(first) = text.first() else {
        return symbol_at(text);
    };
    if first.is_ascii_alphabetic() {
        return Some(word_at(text));
    }
    if *first == b'{' {
        return ground_at(text, place);
    }
    symbol_at(text)
}

/// How many ground terms there are with this token.
fn counting(grounds: usize, token: Token) -> usize
    requires { grounds + 1 < 2 ^ 64 }
    ensures { result ≡ counting grounds (as_token token.entry) }
{
    match token {
        Token::Ground(_, _) => grounds + 1,
        _ => grounds,
    }
}

/// The tokens of a text, or its first byte with which none begins.
pub(crate) fn lexemes<'a>(alloc: Global, text: &'a [u8]) -> Result<Vec<Lexeme<'a>>, FFault>
    ensures tokens { IfOk result (λ lexemes. AreTokensOf text.now (tokens_of lexemes.items)) }
    ensures places { IfOk result (λ lexemes. HavePlaces text.now lexemes.items) }
    ensures fault { IfErr result (λ e. IfSome (as_formula_fault e) (IsFirstFormulaFault text.now)) }
{
    let mut lexemes = Vec::new(alloc);
    let mut at = 0;
    let mut grounds = 0;
    'tokens: while at < text.len() {
        if is_blank(text[at]) {
            at += 1;
            continue;
        }
        let Some(Spotted { token, len }) = token_at(&text[at..], grounds) else {
            return Err(FFault::BadByte(at));
        };
        lexemes.push(Lexeme { at, token })?;
        grounds = counting(grounds, token);
        at += len;
    }
    Ok(lexemes)
}

/// The offset of the first parenthesis that opens one too many.
pub(crate) fn too_deep(lexemes: &[Lexeme]) -> Option<usize>
    ensures some { IfSome result (λ i. (text : List ℕ) → HavePlaces text lexemes.now
        → OpensTooMany text i) }
    ensures none { IfNone result (AreShallow (tokens_of lexemes.now)) }
{
    let mut open: usize = 0;
    for lexeme in lexemes {
        match lexeme.token {
            Token::Open => {
                if open == DEEPEST {
                    return Some(lexeme.at);
                }
                open += 1;
            }
            Token::Close => open = open.saturating_sub(1),
            _ => {}
        }
    }
    None
}
