//! The patterns that stand as an argument of some pattern with a given root.
ghost use Rattle.std.specs.Prelude.{◌≡◌, ℕ, ◌+◌, ◌*◌, ◌-◌, ◌<◌, ◌≤◌, ◌^◌, ◌||◌, Some, length};
ghost use Rattle.std.specs.List.{list_any};
ghost use Rattle.fort_tuple_symbols.specs.Columns.{as_column};
ghost use Rattle.fort_label_bits.specs.RowBits.{bit_of};
ghost use Rattle.fort_mark_keys.specs.AskedPlaces.{argument as argument_lem, is_bit_at, adds_bit, HaveArgumentsWithin};

use fort_label_bits::{Numbered, add_mark, is_there, pattern_at};
use fort_terms::Sym;

/// The place of an argument of a pattern with this root.
fn argument(pattern: &Numbered, root: Option<Sym>, place: usize) -> Option<u32>
    ensures { result ≡ argument_lem (as_column root) place pattern.now }
{
    match root {
        None => None,
        Some(f) => match pattern.sym {
            None => None,
            Some(g) => {
                if g == f {
                    pattern.args.get(place).copied()
                } else {
                    None
                }
            }
        },
    }
}

/// Adds the bit of the pattern at a place, unless it is Any.
fn add_place(patterns: &[Numbered], base: usize, place: Option<u32>, out: &mut [u64])
    requires small { base < 2 ^ 62 }
    requires few { length patterns.now < 2 ^ 32 }
    requires room { base + length patterns.now ≤ 64 * (length out.old - 1) }
    requires within { (k : ℕ) → place ≡ Some k → k < length patterns.now }
    ensures { (q : ℕ) → bit_of q out.new
        ≡ (bit_of q out.old || is_bit_at base patterns.now q place) }
{
    if let Some(k) = place {
        let asked = pattern_at(patterns, k as usize).root();
        add_mark(out, base + k as usize, is_there(asked));
    }
}

/// Adds the bits of the patterns, other than Any, that stand as this argument of one with the root.
pub(crate) fn add_arguments(
    patterns: &[Numbered],
    base: usize,
    root: Option<Sym>,
    place: usize,
    out: &mut [u64],
)
    requires small { base < 2 ^ 62 }
    requires few { length patterns.now < 2 ^ 32 }
    requires room { base + length patterns.now ≤ 64 * (length out.old - 1) }
    requires within { HaveArgumentsWithin patterns.now }
    ensures { (q : ℕ) → bit_of q out.new ≡ (bit_of q out.old
        || list_any (adds_bit base patterns.now (as_column root) place q) patterns.now) }
{
    for pattern in patterns {
        add_place(patterns, base, argument(pattern, root, place), out);
    }
}
