//! Numbers of a range, from their texts.
ghost use Rattle.std.specs.Prelude.{◌≡◌};
ghost use Rattle.fort_answers.specs.Requests.{number_in};

use itoa::Buffer;

/// The number from `low` to `high` that the text writes in decimal digits, with no needless zero.
pub fn parse_number(text: &str, low: u32, high: u32) -> Option<u32>
    ensures { result ≡ number_in low high text.now }
{
    let n = match text.parse::<u32>() {
        Ok(n) => n,
        Err(_) => return None,
    };
    // `parse` also takes a sign, and zeros in front.
    let mut buffer = Buffer::new();
    if low <= n && n <= high && buffer.format(n) == text {
        Some(n)
    } else {
        None
    }
}
