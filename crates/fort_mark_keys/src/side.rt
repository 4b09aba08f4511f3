//! The patterns for one argument of an atom.
ghost use Rattle.std.specs.Prelude.{◌≡◌, ℕ, ◌+◌, ◌*◌, ◌-◌, ◌<◌, ◌≤◌, ◌^◌, List, ◌++◌, Bool, map, length};
ghost use Rattle.fort_terms.specs.PatternView.{as_pattern};
ghost use Rattle.fort_tuple_symbols.specs.Columns.{as_column};
ghost use Rattle.fort_label_bits.specs.NumberedView.{AreNumbersOf};
ghost use Rattle.fort_label_bits.specs.RowBits.{HasBits};
ghost use Rattle.fort_mark_keys.specs.AskedMarks.{asks_pattern};
ghost use Rattle.fort_mark_keys.specs.AskedPlaces.{NoneListedTwice};

use crate::arguments::add_arguments;
use fort_label_bits::Numbered;
use fort_terms::{Pattern, Sym};
use std::marker::Model;

/// Patterns, and each of them by numbers, which others own. It is seen as the list of the patterns.
#[derive(Drop)]
pub struct Side<'a> {
    patterns: &'a [Pattern],
    numbers: &'a [Numbered],
}

impl<'a> Model for Side<'a> {
    ghost use Rattle.std.specs.Prelude.{List};
    ghost use Rattle.fort_theory.specs.Patterns.{Pattern};

    ghost Value = { List Pattern };

    ghost use Rattle.fort_mark_keys.specs.SideView.{patterns_code, patterns_seen, IsSide};

    ghost coded = { patterns_code };

    ghost view = { patterns_seen };

    ghost invariant = { IsSide };
}

impl<'a> Side<'a> {
    /// The numbers are places in the list of the patterns.
    pub fn new(patterns: &'a [Pattern], numbers: &'a [Numbered]) -> Side<'a>
        requires numbers { AreNumbersOf (map as_pattern patterns.now) numbers.now }
        requires few { length patterns.now < 2 ^ 32 }
        requires once { NoneListedTwice (map as_pattern patterns.now) }
        ensures { result ≡ map as_pattern patterns.now }
    {
        Side { patterns, numbers }
    }

    pub(crate) fn len(&self) -> usize
        ensures count { result ≡ length self.now }
        ensures few { result < 2 ^ 32 }
    {
        self.numbers.len()
    }

    /// Puts the bits of the patterns that are asked of a child at this place under the root.
    pub(crate) fn put_asked(&self, base: usize, root: Option<Sym>, place: usize, out: &mut [u64])
        requires small { base < 2 ^ 62 }
        requires room { base + length self.now ≤ 64 * (length out.old - 1) }
        ensures { (bits : List Bool) → length bits ≡ base → HasBits bits out.old
            → HasBits (bits ++ map (asks_pattern self.now (as_column root) place) self.now)
            out.new }
    {
        add_arguments(self.numbers, base, root, place, out);
    }
}
