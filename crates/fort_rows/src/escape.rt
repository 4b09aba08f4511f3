//! Texts in which `\xHH` stands for a byte, and `\*N[TEXT]` for N copies of a text.
ghost use Rattle.std.specs.Prelude.{◌<◌, IfSome};

use std::alloc::AllocError;

/// The value of a digit in base 16.
fn digit(byte: u8) -> Option<u8>
    ensures { IfSome result (λ value. value < 16) }
{
    match byte {
        b'0'..=b'9' => Some(byte - b'0'),
        b'a'..=b'f' => Some(byte - b'a' + 10),
        _ => None,
    }
}

/// The byte of two digits.
fn byte_of(high: u8, low: u8) -> Option<u8> {
    let high = digit(high)?;
    let low = digit(low)?;
    Some(high * 16 + low)
}

/// Appends a byte of two digits and what stands behind them, and says whether that is an escape.
fn push_byte(bytes: &mut Vec<u8>, behind: &str) -> Result<bool, AllocError> {
    let [high, low, rest @ ..] = behind.as_bytes() else {
        return Ok(false);
    };
    let Some(byte) = byte_of(*high, *low) else {
        return Ok(false);
    };
    bytes.push(byte)?;
    bytes.extend_from_slice(rest)?;
    Ok(true)
}

/// Appends copies of a text and what stands behind its bracket, and says whether that is an escape.
fn push_copies(bytes: &mut Vec<u8>, behind: &str) -> Result<bool, AllocError> {
    let Some((digits, inside)) = behind.split_once('[') else {
        return Ok(false);
    };
    let Some((text, rest)) = inside.split_once(']') else {
        return Ok(false);
    };
    let Ok(count) = digits.parse::<u32>() else {
        return Ok(false);
    };
    for _ in 0..count {
        bytes.extend_from_slice(text.as_bytes())?;
    }
    bytes.extend_from_slice(rest.as_bytes())?;
    Ok(true)
}

/// Appends what stands behind a backslash, and says whether that is an escape.
fn push_escaped(bytes: &mut Vec<u8>, behind: &str) -> Result<bool, AllocError> {
    if let Some(digits) = behind.strip_prefix('x') {
        return push_byte(bytes, digits);
    }
    if let Some(copies) = behind.strip_prefix('*') {
        return push_copies(bytes, copies);
    }
    Ok(false)
}

/// Appends a text, each of its escapes as what it stands for, and says whether each backslash begins one. Where one
/// doesn't, the text is appended up to there.
pub fn push_text(bytes: &mut Vec<u8>, text: &str) -> Result<bool, AllocError> {
    for (i, piece) in text.split('\\').enumerate() {
        if i == 0 {
            bytes.extend_from_slice(piece.as_bytes())?;
        } else if !push_escaped(bytes, piece)? {
            return Ok(false);
        }
    }
    Ok(true)
}
