//! Sets of tuple symbols, by their digits.
ghost use Rattle.std.specs.Prelude.{◌≡◌, ℕ, ◌<◌, ◌≤◌, ◌^◌, [], ◌∷◌, ◌++◌, length, slice_index_or, IsTrue, OnOk, OnErr, MatchOption};
ghost use Rattle.std.specs.Int.Digits.{number_from_digits, AllBelowBase};
ghost use Rattle.fort_tuple_symbols.specs.DigitNumbers.{AreDigits};

use crate::digit_set::DigitSet;
use crate::number_set::NumberSet;
use std::alloc::{AllocError, Global};
use std::marker::Model;

/// Digits by their number in the base, where there are few such numbers, else by their hash.
#[derive(Drop)]
pub enum Storage {
    Numbered(NumberSet),
    Hashed(DigitSet),
}

/// Lists of digits below a base, in the order in which they came.
#[derive(Drop)]
pub struct SymbolSet {
    base: u32,
    columns: usize,
    storage: Storage,
}

impl Model for SymbolSet {
    ghost use Rattle.fort_tuple_symbols.specs.SymbolSetView.{Symbols};

    ghost Value = { Symbols };

    ghost use Rattle.fort_tuple_symbols.specs.SymbolSetInside.{symbols_in, IsSymbolSet};

    ghost view = { symbols_in };

    ghost invariant = { IsSymbolSet };
}

/// Whether there are few numbers of that many digits.
pub fn are_few(base: u32, columns: usize) -> bool
    requires { columns ≤ 16 }
    ensures { IsTrue result → base ^ columns ≤ 2 ^ 26 }
{
    match (base as usize).checked_pow(columns as u32) {
        Some(count) => count <= 1 << 26,
        None => false,
    }
}

/// The number of digits in a base, the first one counting most.
pub fn number_of(base: u32, digits: &[u32]) -> Option<u32>
    requires { base ^ length digits.now ≤ 2 ^ 26 }
    ensures { MatchOption result (AllBelowBase base digits.now → ⊥)
        (λ n. AllBelowBase base digits.now × (n ≡ number_from_digits base digits.now)) }
{
    let mut number = 0;
    for digit in digits {
        if *digit >= base {
            return None;
        }
        number = number * base + *digit;
    }
    Some(number)
}

impl SymbolSet {
    pub fn new(alloc: Global, base: u32, columns: usize) -> SymbolSet
        requires some { 0 < base }
        requires narrow { columns ≤ 16 }
        ensures base { result.base ≡ base }
        ensures columns { result.columns ≡ columns }
        ensures none { result.digits ≡ [] }
    {
        let storage = if are_few(base, columns) {
            Storage::Numbered(NumberSet::new(alloc))
        } else {
            Storage::Hashed(DigitSet::new(alloc))
        };
        SymbolSet {
            base,
            columns,
            storage,
        }
    }

    /// Appends digits that aren't there yet.
    pub fn push(&mut self, alloc: Global, digits: &[u32]) -> Result<(), AllocError>
        requires fit { AreDigits self.old.base self.old.columns digits.now }
        requires absent { (q : ℕ) → q < length self.old.digits
            → slice_index_or self.old.digits q [] ≡ digits.now → ⊥ }
        ensures base { self.new.base ≡ self.old.base }
        ensures columns { self.new.columns ≡ self.old.columns }
        ensures ok { OnOk result (self.new.digits ≡ self.old.digits ++ digits.now ∷ []) }
        ensures err { OnErr result (self.new.digits ≡ self.old.digits) }
    {
        match &mut self.storage {
            Storage::Numbered(set) => match number_of(self.base, digits) {
                Some(number) => set.push(number),
                None => unreachable!(),
            },
            Storage::Hashed(set) => set.push(Vec::from_slice(alloc, digits)?),
        }
    }

    /// The place of the digits.
    pub fn find(&self, digits: &[u32]) -> Option<usize>
        ensures { MatchOption result
            ((q : ℕ) → q < length self.now.digits
            → slice_index_or self.now.digits q [] ≡ digits.now → ⊥)
            (λ q. (q < length self.now.digits)
            × (slice_index_or self.now.digits q [] ≡ digits.now)) }
    {
        match &self.storage {
            Storage::Numbered(set) => {
                if digits.len() != self.columns {
                    return None;
                }
                match number_of(self.base, digits) {
                    Some(number) => set.find(number),
                    None => None,
                }
            }
            Storage::Hashed(set) => set.find(digits),
        }
    }
}
