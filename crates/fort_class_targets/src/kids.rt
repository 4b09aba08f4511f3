//! The presences of the children under a tuple symbol.
ghost use Rattle.std.specs.Prelude.{◌≡◌, ℕ, ◌<◌, ◌≤◌, slice_index};
ghost use Rattle.fort_tables.specs.Tuples.{AreSymbols, kid_presence as kid_presence_lem};

use fort_target_lists::kid_presence;
use fort_terms::Signature;
use fort_tuple_symbols::TupleSym;

/// The presences of so many children under a tuple symbol.
pub(crate) fn kid_presences(sig: &Signature, symbol: &TupleSym, count: usize) -> [u32; 8]
    requires symbols { AreSymbols sig.now symbol.now }
    requires few { count ≤ 8 }
    ensures { (j : ℕ) → j < count
        → slice_index result j ≡ kid_presence_lem sig.now symbol.now j }
{
    let mut wanted = [0u32; 8];
    for place in 0..count {
        wanted[place] = u32::from(kid_presence(sig, symbol, place));
    }
    wanted
}
