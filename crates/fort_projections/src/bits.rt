//! Set bits, one after another.
ghost use Rattle.std.specs.Prelude.{◌≡◌, ◌<◌, ◌^◌, ◌*◌, length, slice_index, IfSome, IfNone};
ghost use Rattle.std.specs.Slice.Scan.{HoldsNowhere};
ghost use Rattle.fort_tables.specs.BitRows.{has_bit};
ghost use Rattle.fort_projections.specs.Choices.{IsNext};

/// The first set bit from `from` on.
pub(crate) fn next_bit(words: &[u64], from: usize) -> Option<usize>
    requires { length words.now < 2 ^ 32 }
    ensures some { IfSome result (IsNext (has_bit words.now) from) }
    ensures none { IfNone result (HoldsNowhere (has_bit words.now) from (64 * length words.now)) }
{
    let rest = word_at(words, from / 64) >> (from % 64);
    if rest != 0 {
        return Some(from + rest.trailing_zeros() as usize);
    }
    for k in from / 64 + 1..words.len() {
        let word = words[k];
        if word != 0 {
            return Some(64 * k + word.trailing_zeros() as usize);
        }
    }
    None
}

/// A word, and 0 behind the last one.
fn word_at(words: &[u64], k: usize) -> u64
    ensures { result ≡ slice_index words.now k }
{
    words.get(k).copied().unwrap_or(0)
}
