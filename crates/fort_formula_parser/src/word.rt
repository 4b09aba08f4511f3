//! Tokens that are words.

ghost use Rattle.std.specs.Prelude.{◌≡◌, true, All, Contains, IfSome, IfNone};
ghost use Rattle.fort_formula_grammar.specs.Tokens.{begins_with_letter, is_name_byte, token_text, IsToken};
ghost use Rattle.fort_formula_grammar.specs.TokenForms.{IsRun};
ghost use Rattle.fort_formula_parser.specs.TokenView.{as_token};
ghost use Rattle.fort_formula_parser.specs.Spellings.{texts_of, IsSpelled, IsSpotted};

use crate::token::{Spelling, Spotted, Token};
use fort_formulas::Macro;

/// The words of formulas that name no variable.
const KEYWORDS: [Spelling; 16] = [
    Spelling {
        text: b"exists",
        token: Token::Exists,
    },
    Spelling {
        text: b"forall",
        token: Token::Forall,
    },
    Spelling {
        text: b"infinite",
        token: Token::Infinite,
    },
    Spelling {
        text: b"true",
        token: Token::True,
    },
    Spelling {
        text: b"false",
        token: Token::False,
    },
    Spelling {
        text: b"NF",
        token: Token::Nf,
    },
    Spelling {
        text: b"JOIN",
        token: Token::Join,
    },
    Spelling {
        text: b"CR",
        token: Token::Has(Macro::Cr),
    },
    Spelling {
        text: b"WCR",
        token: Token::Has(Macro::Wcr),
    },
    Spelling {
        text: b"SCR",
        token: Token::Has(Macro::Scr),
    },
    Spelling {
        text: b"WN",
        token: Token::Has(Macro::Wn),
    },
    Spelling {
        text: b"UNR",
        token: Token::Has(Macro::Unr),
    },
    Spelling {
        text: b"UNC",
        token: Token::Has(Macro::Unc),
    },
    Spelling {
        text: b"NFP",
        token: Token::Has(Macro::Nfp),
    },
    Spelling {
        text: b"COM",
        token: Token::Com,
    },
    Spelling {
        text: b"SN",
        token: Token::Sn,
    },
];

/// Whether a byte is a letter, a digit or an underscore.
fn is_name_byte(b: u8) -> bool
    ensures { result ≡ is_name_byte b }
{
    b.is_ascii_alphanumeric() || b == b'_'
}

/// How many bytes of names the text begins with.
fn run_length(text: &[u8]) -> usize
    ensures { IsRun text.now result }
{
    for (i, b) in text.iter().enumerate() {
        if !is_name_byte(*b) {
            return i;
        }
    }
    text.len()
}

/// The token that is the whole word, if one of these.
fn keyword_among(word: &[u8], spellings: &[Spelling]) -> Option<Token<'static>>
    requires { All IsSpelled spellings.now }
    ensures some { IfSome result (λ token. IsToken (as_token token)
        × (token_text (as_token token) ≡ word.now)) }
    ensures none { IfNone result (Contains (texts_of spellings.now) word.now → ⊥) }
{
    for spelling in spellings {
        if spelling.text == word {
            return Some(spelling.token);
        }
    }
    None
}

/// The token that begins a text where a letter stands.
pub(crate) fn word_at(text: &[u8]) -> Spotted<'_>
    requires { begins_with_letter text.now ≡ true }
    ensures { IsSpotted text.now result }
{
    let len = run_length(text);
    let word = &text[..len];
    match keyword_among(word, &KEYWORDS) {
        Some(token) => Spotted { token, len },
        None => Spotted {
            token: Token::Variable(word),
            len,
        },
    }
}
