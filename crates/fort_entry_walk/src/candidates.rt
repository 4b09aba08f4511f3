//! The tuple symbols that can have an entry at a stage, one after another.
ghost use Rattle.std.specs.Prelude.{◌≡◌, ℕ, ◌+◌, ◌-◌, ◌<◌, ◌≤◌, ◌∷◌, length, IfSome, IsTrue};
ghost use Rattle.std.specs.List.{range_with_len};
ghost use Rattle.fort_theory.specs.Signatures as theory;
ghost use Rattle.fort_tuple_symbols.specs.DigitNumbers.{AreUpTo};
ghost use Rattle.fort_entry_walk.specs.Walks.{GivesFirst, some_if, with_others};
ghost use Rattle.fort_tuple_symbols.specs.Columns.{column_arity};
ghost use Rattle.fort_entry_walk.specs.Candidates.{narrowed, candidates, candidates_from, candidates_after, LeavesOut};
ghost use Rattle.fort_entry_walk.specs.WalkPlaces.{AreAtMost, AreArities, IsFlat};

use crate::digit_row::DigitRow;
use fort_terms::Signature;
use fort_tuple_symbols::{column_arity, digit_arity};

/// The children `from..to`, which have the right presence in the columns so far.
#[derive(Clone, Copy)]
pub struct KidRange {
    /// Bit i for column i of those to come.
    pub presence: u32,
    pub from: usize,
    pub to: usize,
}

impl KidRange {
    /// The children that keep it with one more column, of this arity.
    fn with_column(self, arity: usize) -> KidRange
        ensures { result ≡ narrowed self arity }
    {
        let presence = self.presence / 2;
        if self.presence % 2 == 1 {
            KidRange {
                presence,
                from: self.from,
                to: self.to.min(arity),
            }
        } else {
            KidRange {
                presence,
                from: self.from.max(arity),
                to: self.to,
            }
        }
    }
}

/// Whether a column has no children, and none with the next symbol.
pub fn has_next_constant(sig: &Signature, digit: u32) -> bool
    ensures { IsTrue result → (digit < length sig.now) × (column_arity sig.now digit ≡ 0)
        × (column_arity sig.now (digit + 1) ≡ 0) }
{
    (digit as usize) < sig.len()
        && column_arity(sig, digit) == 0
        && column_arity(sig, digit + 1) == 0
}

/// What the search asks of the arities of a signature.
#[derive(Clone, Copy)]
pub struct Arities {
    /// The greatest one.
    pub most: usize,
    /// The symbols of the digits before this one have no arguments.
    pub flat: u32,
}

impl Arities {
    pub fn of(sig: &Signature) -> Arities
        ensures { AreArities sig.now result }
    {
        Arities {
            most: greatest_arity(sig),
            flat: flat_digits(sig),
        }
    }
}

/// So many digits in front have no arguments.
fn flat_digits(sig: &Signature) -> u32
    ensures flat { IsFlat sig.now result }
    ensures within { result ≤ length sig.now + 1 }
{
    for digit in 1..sig.len() as u32 + 1 {
        if digit_arity(sig, digit) > 0 {
            return digit;
        }
    }
    sig.len() as u32 + 1
}

/// The greatest arity of a symbol.
fn greatest_arity(sig: &Signature) -> usize
    ensures { AreAtMost sig.now result }
{
    let mut greatest = 0;
    for digit in 1..sig.len() as u32 + 1 {
        greatest = greatest.max(digit_arity(sig, digit));
    }
    greatest
}

/// The children that may have the presence of the newest state, of `most` at most; at stage 0 there is none.
pub fn stage_range(most: usize, presences: &[u16], stage: u32) -> KidRange
    requires { stage ≤ length presences.now }
    ensures { (sig : theory.Signature) → AreAtMost sig most
        → LeavesOut sig presences.now stage result }
{
    if stage == 0 {
        KidRange {
            presence: 0,
            from: 0,
            to: 1,
        }
    } else {
        KidRange {
            presence: u32::from(presences[(stage - 1) as usize]),
            from: 0,
            to: most,
        }
    }
}

/// The first digit from this one on that may leave a child: a column with the presence needs arguments.
fn skip_flat(flat: u32, range: KidRange, from: u32) -> u32
    ensures after { from ≤ result }
    ensures skips { (sig : theory.Signature) (c : ℕ) → IsFlat sig flat
        → candidates_from sig range c (range_with_len from (length sig + 1 - from))
        ≡ candidates_from sig range c (range_with_len result (length sig + 1 - result)) }
{
    if range.presence % 2 == 1 {
        from.max(flat)
    } else {
        from
    }
}

/// Writes the first candidate over these digits; where there is none, they are any.
#[cycle(candidates)]
fn write_first(sig: &Signature, flat: u32, range: KidRange, digits: &mut [u32]) -> bool
    requires flat { IsFlat sig.now flat }
    ensures width { length digits.new ≡ length digits.old }
    ensures digits { IfSome (some_if result digits.new) (AreUpTo (length sig.now)) }
    ensures next { GivesFirst (candidates sig.now range (length digits.old))
        (candidates_after sig.now range) (some_if result digits.new) }
{
    if range.to <= range.from {
        return false;
    }
    match digits.split_first_mut() {
        None => true,
        Some((first, others)) => match write_first_from(sig, flat, range, others, 0) {
            Some(digit) => {
                *first = digit;
                true
            }
            None => false,
        },
    }
}

/// The first digit of the first candidate that begins with `from` or a later one; its others are written over these.
#[cycle(candidates)]
fn write_first_from(
    sig: &Signature,
    flat: u32,
    range: KidRange,
    others: &mut [u32],
    from: u32,
) -> Option<u32>
    requires flat { IsFlat sig.now flat }
    requires from { from ≤ length sig.now + 1 }
    ensures width { length others.new ≡ length others.old }
    ensures digits { IfSome result (λ d. AreUpTo (length sig.now) (d ∷ others.new)) }
    ensures next { GivesFirst (candidates_from sig.now range (length others.old)
        (range_with_len from (length sig.now + 1 - from))) (candidates_after sig.now range)
        (with_others others.new result) }
{
    for digit in skip_flat(flat, range, from)..sig.len() as u32 + 1 {
        if write_first(
            sig,
            flat,
            range.with_column(column_arity(sig, digit)),
            others,
        ) {
            return Some(digit);
        }
    }
    None
}

/// Writes the candidate after these digits over them; where there is none, they are any.
fn write_next(sig: &Signature, flat: u32, range: KidRange, digits: &mut [u32]) -> bool
    requires flat { IsFlat sig.now flat }
    requires symbols { AreUpTo (length sig.now) digits.old }
    ensures width { length digits.new ≡ length digits.old }
    ensures digits { IfSome (some_if result digits.new) (AreUpTo (length sig.now)) }
    ensures next { GivesFirst (candidates_after sig.now range digits.old)
        (candidates_after sig.now range) (some_if result digits.new) }
{
    if range.to <= range.from {
        return false;
    }
    // its clause says that the signature is lawful
    let _count = sig.len();
    match digits.split_first_mut() {
        None => false,
        Some((first, others)) => {
            if write_next(
                sig,
                flat,
                range.with_column(column_arity(sig, *first)),
                others,
            ) {
                return true;
            }
            // the last symbol comes often, and none is behind it
            if *first as usize >= sig.len() {
                return false;
            }
            match write_first_from(sig, flat, range, others, *first + 1) {
                Some(digit) => {
                    *first = digit;
                    true
                }
                None => false,
            }
        }
    }
}

/// Goes to the candidate after these digits; where there is none, they are any.
pub fn to_next_candidate(sig: &Signature, flat: u32, range: KidRange, row: &mut DigitRow) -> bool
    requires flat { IsFlat sig.now flat }
    requires symbols { AreUpTo (length sig.now) row.old }
    ensures width { length row.new ≡ length row.old }
    ensures digits { IfSome (some_if result row.new) (AreUpTo (length sig.now)) }
    ensures next { GivesFirst (candidates_after sig.now range row.old)
        (candidates_after sig.now range) (some_if result row.new) }
{
    let start = row.start;
    let digits = &mut row.digits;
    write_next(sig, flat, range, &mut digits[start..])
}
