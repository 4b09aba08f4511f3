//! Bits of rows of words.
ghost use Rattle.std.specs.Prelude.{◌≡◌, ◌≢◌, ℕ, ◌<◌, ◌/◌, ◌==◌, ◌||◌, length, slice_index};
ghost use Rattle.fort_tables.specs.BitRows as bits;

/// Whether bit `q` is set; behind the last word no bit is.
pub fn has_bit(words: &[u64], q: usize) -> bool
    ensures { result ≡ bits.has_bit words.now q }
{
    let word = words.get(q / 64).copied().unwrap_or(0);
    (word >> (q % 64)) & 1 == 1
}

/// Sets bit `q`.
pub fn set_bit(words: &mut [u64], q: usize)
    requires { q / 64 < length words.old }
    ensures bits { (i : ℕ) → bits.has_bit words.new i ≡ ((q == i) || bits.has_bit words.old i) }
    ensures others { (k : ℕ) → k ≢ q / 64 → slice_index words.new k ≡ slice_index words.old k }
{
    words[q / 64] |= 1u64 << (q % 64);
}
