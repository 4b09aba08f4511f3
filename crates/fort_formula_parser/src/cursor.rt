//! The token at a place.

ghost use Rattle.std.specs.Prelude.{◌≡◌, ◌≤◌, length, MatchBool, MatchOption};
ghost use Rattle.fort_formula_grammar.specs.Tokens as grammar;
ghost use Rattle.fort_formula_grammar.specs.Continuations.{HasNoNext, HasNoVariable, HasNoArgument};
ghost use Rattle.fort_formula_parser.specs.TokenView.{as_token, as_mark};
ghost use Rattle.fort_formula_parser.specs.Parsing.{rest_of, IsTokenAt, AreFewGrounds, IsArgumentAt, IsIndexAt, HasNoRelated, IsRelationAt, argument_of};

use crate::token::{Lexeme, Token};
use fort_formulas::SurfaceRel;

/// A token that separates formulas, or encloses an expression.
#[derive(Clone, Copy)]
pub(crate) enum Mark {
    Open,
    Close,
    Comma,
    And,
    Or,
    Imp,
    Iff,
    Begin,
    End,
}

/// Whether a token is this mark.
fn is_mark(token: Token, mark: Mark) -> bool
    ensures { MatchBool result (as_token token.entry ≡ as_mark mark)
        (as_token token.entry ≡ as_mark mark → ⊥) }
{
    match mark {
        Mark::Open => matches!(token, Token::Open),
        Mark::Close => matches!(token, Token::Close),
        Mark::Comma => matches!(token, Token::Comma),
        Mark::And => matches!(token, Token::And),
        Mark::Or => matches!(token, Token::Or),
        Mark::Imp => matches!(token, Token::Imp),
        Mark::Iff => matches!(token, Token::Iff),
        Mark::Begin => matches!(token, Token::Begin),
        Mark::End => matches!(token, Token::End),
    }
}

/// Whether this mark is the token at a place.
pub(crate) fn is_next(lexemes: &[Lexeme], at: usize, mark: Mark) -> bool
    ensures { MatchBool result (IsTokenAt lexemes.now at (as_mark mark))
        (HasNoNext (as_mark mark) (rest_of lexemes.now at)) }
{
    let Some(lexeme) = lexemes.get(at) else {
        return false;
    };
    is_mark(lexeme.token, mark)
}

/// The variable at a place, where one is.
pub(crate) fn variable_at<'a>(lexemes: &[Lexeme<'a>], at: usize) -> Option<&'a [u8]>
    ensures { MatchOption result (HasNoVariable (rest_of lexemes.now at))
        (λ x. IsTokenAt lexemes.now at (grammar.Variable x.now)) }
{
    match lexemes.get(at)?.token {
        Token::Variable(x) => Some(x),
        _ => None,
    }
}

/// What stands on a side of a relation.
#[derive(Clone, Copy)]
pub(crate) enum Argument<'a> {
    Variable(&'a [u8]),
    /// A ground term by its place.
    Ground(u32),
}

/// The argument at a place, where one is. It is one token.
pub(crate) fn argument_at<'a>(lexemes: &[Lexeme<'a>], at: usize) -> Option<Argument<'a>>
    requires { AreFewGrounds lexemes.now }
    ensures { MatchOption result (HasNoArgument (rest_of lexemes.now at))
        (λ a. IsArgumentAt lexemes.now at (argument_of a)) }
{
    let Some(lexeme) = lexemes.get(at) else {
        return None;
    };
    match lexeme.token {
        Token::Variable(x) => Some(Argument::Variable(x)),
        Token::Ground(place, _) => Some(Argument::Ground(place as u32)),
        _ => None,
    }
}

/// An index that was read, and the place of the first token behind it.
#[derive(Clone, Copy)]
pub(crate) struct Indexed {
    pub index: u32,
    pub next: usize,
}

/// The index at a place; where none is, it is 1.
pub(crate) fn index_at(lexemes: &[Lexeme], at: usize) -> Indexed
    requires { at ≤ length lexemes.now }
    ensures { IsIndexAt lexemes.now at result }
{
    let Some(lexeme) = lexemes.get(at) else {
        return Indexed { index: 1, next: at };
    };
    match lexeme.token {
        Token::Index(index) => Indexed {
            index,
            next: at + 1,
        },
        _ => Indexed { index: 1, next: at },
    }
}

/// A relation by rules that was read, with their index, and the place of the first token behind it.
#[derive(Clone, Copy)]
pub(crate) struct Relation {
    pub rel: SurfaceRel,
    pub index: u32,
    pub next: usize,
}

/// The relation by rules at a place, where one is.
pub(crate) fn relation_at(lexemes: &[Lexeme], at: usize) -> Option<Relation>
    ensures { MatchOption result (HasNoRelated (rest_of lexemes.now at))
        (IsRelationAt lexemes.now at) }
{
    let Some(lexeme) = lexemes.get(at) else {
        return None;
    };
    let Token::Related(rel) = lexeme.token else {
        return None;
    };
    match rel {
        // equality isn't about rules
        SurfaceRel::Eq => Some(Relation {
            rel,
            index: 1,
            next: at + 1,
        }),
        _ => {
            let Indexed { index, next } = index_at(lexemes, at + 1);
            Some(Relation { rel, index, next })
        }
    }
}
