//! Ground terms in braces.

ghost use Rattle.std.specs.Prelude.{◌≡◌, true, IfSome, IfNone};
ghost use Rattle.fort_formula_grammar.specs.Tokens.{is_ground_byte};
ghost use Rattle.fort_formula_grammar.specs.TokenText.{BeginsWithNoToken};
ghost use Rattle.fort_formula_grammar.specs.TokenForms.{begins_with_brace, IsRunOf};
ghost use Rattle.fort_formula_parser.specs.Spellings.{IsSpottedAt};

use crate::token::{Spotted, Token};

/// The most bytes between the braces of a ground term.
const LONGEST: usize = 4_294_967_295;

/// Whether a byte may stand between the braces: a blank or printable ASCII, but for `}` and `;`.
fn is_ground_byte(b: u8) -> bool
    ensures { result ≡ is_ground_byte b }
{
    match b {
        b'}' | b';' => false,
        b' ' | b'\t' | b'\r' | b'\n' => true,
        _ => b'!' <= b && b <= b'~',
    }
}

/// How many such bytes the text begins with.
fn run_length(text: &[u8]) -> usize
    ensures { IsRunOf is_ground_byte text.now result }
{
    for (i, b) in text.iter().enumerate() {
        if !is_ground_byte(*b) {
            return i;
        }
    }
    text.len()
}

/// The ground term that begins a text where a brace stands, with so many ground terms before it.
pub(crate) fn ground_at(text: &[u8], place: usize) -> Option<Spotted<'_>>
    requires { begins_with_brace text.now ≡ true }
    ensures some { IfSome result (IsSpottedAt place text.now) }
    ensures none { IfNone result (BeginsWithNoToken text.now) }
{
    let inside = &text[1..];
    let len = run_length(inside);
    if len == inside.len() || inside[len] != b'}' || len > LONGEST {
        return None;
    }
    Some(Spotted {
        token: Token::Ground(place, &inside[..len]),
        len: len + 2,
    })
}
