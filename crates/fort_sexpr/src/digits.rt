//! Words of decimal digits. A word is told by the bytes of the text from its first one on.
ghost use Rattle.std.specs.Prelude.{◌≡◌, ◌+◌, ◌*◌, ◌-◌, ◌<◌, ◌≤◌, ◌^◌, IfSome, IfNone};
ghost use Rattle.std.specs.Int.{IsInRange};
ghost use Rattle.fort_sexpr.specs.FormView.{word_ahead, IsDigitWord, IsWritten};

use crate::scan::is_word_byte;

/// The digits that a word is, and the number that they write.
#[derive(Clone, Copy)]
pub struct Digits<'a> {
    pub text: &'a [u8],
    pub value: u32,
}

/// The value of a decimal digit.
fn digit_of(byte: u8) -> Option<u32>
    ensures some { IfSome result (λ d. IsInRange 48 57 byte × (d ≡ byte - 48)) }
    ensures none { IfNone result (IsInRange 48 57 byte → ⊥) }
{
    if byte.is_ascii_digit() {
        Some(u32::from(byte - b'0'))
    } else {
        None
    }
}

/// A number with one more digit behind it.
fn with_digit(value: u32, digit: u32) -> Option<u32>
    requires { digit < 10 }
    ensures some { IfSome result (λ n. n ≡ value * 10 + digit) }
    ensures small { IfSome result (λ n. n < 2 ^ 32) }
    ensures none { IfNone result (2 ^ 32 ≤ value * 10 + digit) }
{
    match value.checked_mul(10) {
        Some(tens) => tens.checked_add(digit),
        None => None,
    }
}

/// The digits that a word is, where what they write is a number of 32 bits; that of no digit is 0.
/// Where the word ends is found on the way.
pub fn digits_ahead(bytes: &[u8]) -> Option<Digits<'_>>
    ensures text { IfSome result (λ d. d.text.now ≡ word_ahead bytes.now) }
    ensures written { IfSome result IsWritten }
    ensures none { IfNone result (IsDigitWord (word_ahead bytes.now) → ⊥) }
{
    let mut value = 0u32;
    for i in 0..bytes.len() {
        let byte = bytes[i];
        let Some(digit) = digit_of(byte) else {
            if is_word_byte(byte) {
                return None;
            }
            return Some(Digits {
                text: &bytes[..i],
                value,
            });
        };
        value = with_digit(value, digit)?;
    }
    Some(Digits { text: bytes, value })
}
