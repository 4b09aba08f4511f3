//! Tokens that are neither words nor ground terms.

ghost use Rattle.std.specs.Prelude.{◌≡◌, true, false, length, IfSome, IfNone};
ghost use Rattle.std.specs.List.{AllByRecursion};
ghost use Rattle.fort_formula_grammar.specs.Tokens.{begins_with_letter};
ghost use Rattle.fort_formula_grammar.specs.TokenText.{BeginsWithNoToken};
ghost use Rattle.fort_formula_grammar.specs.TokenForms.{begins_with_brace, NoneBegins};
ghost use Rattle.fort_formula_parser.specs.TokenView.{as_token};
ghost use Rattle.fort_formula_parser.specs.Spellings.{texts_of, IsSpelled, IsFirst, IsSpotted};

use crate::token::{Spelling, Spotted, Token};
use fort_formulas::SurfaceRel;

/// These tokens, none behind a shorter one: so the first that begins a text is the longest.
const SYMBOLS: [Spelling; 30] = [
    Spelling {
        text: b"-||->",
        token: Token::Related(SurfaceRel::Par),
    },
    Spelling {
        text: b"<->*",
        token: Token::Related(SurfaceRel::Conv),
    },
    Spelling {
        text: b"<=>",
        token: Token::Iff,
    },
    Spelling {
        text: b"<->",
        token: Token::Related(SurfaceRel::Either),
    },
    Spelling {
        text: b"->*",
        token: Token::Related(SurfaceRel::Star),
    },
    Spelling {
        text: b"->+",
        token: Token::Related(SurfaceRel::Plus),
    },
    Spelling {
        text: b"->=",
        token: Token::Related(SurfaceRel::Reflexive),
    },
    Spelling {
        text: b"->!",
        token: Token::Related(SurfaceRel::Normal),
    },
    Spelling {
        text: b"->^",
        token: Token::Related(SurfaceRel::Root),
    },
    Spelling {
        text: b"->_",
        token: Token::Related(SurfaceRel::Below),
    },
    Spelling {
        text: b"[1]",
        token: Token::Index(1),
    },
    Spelling {
        text: b"[2]",
        token: Token::Index(2),
    },
    Spelling {
        text: b"[3]",
        token: Token::Index(3),
    },
    Spelling {
        text: b"[4]",
        token: Token::Index(4),
    },
    Spelling {
        text: b"[5]",
        token: Token::Index(5),
    },
    Spelling {
        text: b"[6]",
        token: Token::Index(6),
    },
    Spelling {
        text: b"[7]",
        token: Token::Index(7),
    },
    Spelling {
        text: b"[8]",
        token: Token::Index(8),
    },
    Spelling {
        text: b"[9]",
        token: Token::Index(9),
    },
    Spelling {
        text: b"=>",
        token: Token::Imp,
    },
    Spelling {
        text: b"->",
        token: Token::Related(SurfaceRel::Step),
    },
    Spelling {
        text: b"<<",
        token: Token::Begin,
    },
    Spelling {
        text: b">>",
        token: Token::End,
    },
    Spelling {
        text: b"=",
        token: Token::Related(SurfaceRel::Eq),
    },
    Spelling {
        text: b"(",
        token: Token::Open,
    },
    Spelling {
        text: b")",
        token: Token::Close,
    },
    Spelling {
        text: b",",
        token: Token::Comma,
    },
    Spelling {
        text: b"~",
        token: Token::Not,
    },
    Spelling {
        text: b"&",
        token: Token::And,
    },
    Spelling {
        text: b"|",
        token: Token::Or,
    },
];

/// The first of these tokens that begins the text.
fn first_among<'a>(text: &[u8], spellings: &[Spelling]) -> Option<Spotted<'a>>
    requires { AllByRecursion IsSpelled spellings.now }
    ensures some { IfSome result (λ found.
        IsFirst text.now (texts_of spellings.now) (as_token found.token) found.len) }
    ensures none { IfNone result
        (NoneBegins text.now (texts_of spellings.now) (length spellings.now)) }
{
    for spelling in spellings {
        if text.starts_with(spelling.text) {
            return Some(Spotted {
                token: spelling.token,
                len: spelling.text.len(),
            });
        }
    }
    None
}

/// The token that begins a text where neither a letter nor a brace stands.
pub(crate) fn symbol_at(text: &[u8]) -> Option<Spotted<'_>>
    requires letter { begins_with_letter text.now ≡ false }
    requires brace { begins_with_brace text.now ≡ false }
    ensures some { IfSome result (IsSpotted text.now) }
    ensures none { IfNone result (BeginsWithNoToken text.now) }
{
    first_among(text, &SYMBOLS)
}
