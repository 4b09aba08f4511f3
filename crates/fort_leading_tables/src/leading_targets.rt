//! The targets of leading entries.
ghost use Rattle.std.specs.Prelude.{◌≡◌, ℕ, ◌+◌, ◌<◌, ◌≤◌, List, [], ◌∷◌, ◌++◌, map, length, Contains, OnOk};
ghost use Rattle.fort_tables.specs.Entries.{Entry, entry};
ghost use Rattle.fort_tables.specs.Tables.{target_in};
ghost use Rattle.fort_tuple_symbols.specs.Columns.{digit_of, symbol_of};
ghost use Rattle.fort_leading_tables.specs.EntryNumbers.{AreTargetsOf, IsNumbered};

use fort_tuple_symbols::{DigitSet, Row};
use std::alloc::{AllocError, Global};

/// The targets of leading entries, found by their tuple symbols and child states.
#[derive(Drop)]
pub struct LeadingTargets {
    /// Of each entry the digits of its tuple symbol, and behind them its child states.
    pub entries: DigitSet,
    pub targets: Vec<u32>,
}

/// The digits of a tuple symbol and the child states behind them, of at most 24 numbers.
#[derive(Clone, Copy)]
struct EntryKey {
    numbers: [u32; 24],
    count: usize,
}

impl EntryKey {
    fn of(digits: &[u32], kids: &[u32]) -> EntryKey
        requires columns { length digits.now ≤ 16 }
        requires kids { length kids.now ≤ 8 }
        ensures { IsNumbered result.numbers result.count (digits.now ++ kids.now) }
    {
        let mut numbers = [0u32; 24];
        let columns = digits.len();
        let count = columns + kids.len();
        numbers[..columns].copy_from_slice(digits);
        numbers[columns..count].copy_from_slice(kids);
        EntryKey { numbers, count }
    }

    fn as_slice(&self) -> &[u32]
        requires { self.now.count ≤ length self.now.numbers }
        ensures { (xs : List ℕ) → IsNumbered self.now.numbers self.now.count xs → result.now ≡ xs }
    {
        let numbers = &self.numbers;
        &numbers[..self.count]
    }
}

impl LeadingTargets {
    /// No entries.
    pub fn new(alloc: Global) -> LeadingTargets
        ensures { (columns : ℕ) → AreTargetsOf columns [] [] result }
    {
        LeadingTargets {
            entries: DigitSet::new(alloc),
            targets: Vec::new(alloc),
        }
    }

    /// Appends an entry that isn't there yet, with its target.
    pub fn push(&mut self, alloc: Global, row: &Row, target: u32) -> Result<(), AllocError>
        requires { (columns : ℕ) × (es : List Entry) × (qs : List ℕ)
            × AreTargetsOf columns es qs self.old × (length row.now.symbol ≡ columns)
            × (Contains es row.now → ⊥) }
        ensures { OnOk result ((columns : ℕ) (es : List Entry) (qs : List ℕ)
            → AreTargetsOf columns es qs self.old → length row.now.symbol ≡ columns
            → (Contains es row.now → ⊥)
            → AreTargetsOf columns (es ++ row.now ∷ []) (qs ++ target ∷ []) self.new) }
    {
        let key = EntryKey::of(row.digits(), row.kids());
        self.entries.push(Vec::from_slice(alloc, key.as_slice())?)?;
        self.targets.push(target)?;
        Ok(())
    }

    /// The target of an entry that is there, by its digits and child states.
    pub fn target(&self, digits: &[u32], kids: &[u32]) -> u32
        requires columns { length digits.now ≤ 16 }
        requires kids { length kids.now ≤ 8 }
        requires there { (columns : ℕ) × (es : List Entry) × (qs : List ℕ)
            × AreTargetsOf columns es qs self.now × (length digits.now ≡ columns)
            × Contains es (entry (symbol_of digits.now) kids.now) }
        ensures { (columns : ℕ) (es : List Entry) (qs : List ℕ)
            → AreTargetsOf columns es qs self.now → length digits.now ≡ columns
            → Contains es (entry (symbol_of digits.now) kids.now)
            → result ≡ target_in es qs (entry (symbol_of digits.now) kids.now) }
    {
        let key = EntryKey::of(digits, kids);
        match self.entries.find(key.as_slice()) {
            Some(place) => self.targets[place],
            None => unreachable!(),
        }
    }
}
