//! Which words are numbers. A word is told by the bytes of the text from its first one on.
ghost use Rattle.std.specs.Prelude.{IfSome, IfNone};
ghost use Rattle.fort_certificate_theory.specs.CertificateForms.{IsNumberWord};
ghost use Rattle.fort_certificate_theory.specs.CertificateFaults.{IsNoNumber};
ghost use Rattle.fort_sexpr.specs.FormView.{word_ahead, IsWritten};

use fort_sexpr::{Digits, digits_ahead};

/// The number that these digits are, with no zero in front of others.
pub(crate) fn parse_number(digits: Digits<'_>) -> Option<u32>
    requires { IsWritten digits }
    ensures some { IfSome result (λ n. IsNumberWord digits.entry.text.now n) }
    ensures none { IfNone result (IsNoNumber digits.entry.text.now) }
{
    let text = digits.text;
    if text.is_empty() {
        return None;
    }
    if text.len() > 1 && text[0] == b'0' {
        return None;
    }
    Some(digits.value)
}

/// The number that a word is.
pub(crate) fn number_ahead(bytes: &[u8]) -> Option<u32>
    ensures some { IfSome result (λ n. IsNumberWord (word_ahead bytes.now) n) }
    ensures none { IfNone result (IsNoNumber (word_ahead bytes.now)) }
{
    parse_number(digits_ahead(bytes)?)
}
