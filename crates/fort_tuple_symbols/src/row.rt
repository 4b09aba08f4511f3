//! Entries.
ghost use Rattle.std.specs.Prelude.{◌≡◌, ℕ, ◌+◌, ◌≤◌, ◌^◌, ◌<◌, ◌↔◌, List, [], ◌∷◌, ◌++◌, map, length, slice_index_or, slice_get, Some, IsTrue};
ghost use Rattle.fort_tables.specs.Tuples.{presence};
ghost use Rattle.fort_tables.specs.Entries.{entry};
ghost use Rattle.fort_tuple_symbols.specs.Columns.{as_column, symbol_of, digit_of};

use crate::digits::presence_of;
use crate::symbol::TupleSym;
use fort_terms::Sym;
use std::marker::Model;

/// An entry: a tuple symbol with up to 8 child states.
#[derive(Clone, Copy)]
pub struct Row {
    len: usize,
    digits: [u32; 16],
    count: usize,
    kids: [u32; 8],
}

impl Model for Row {
    ghost use Rattle.fort_tables.specs.Entries.{Entry};

    ghost Value = { Entry };

    ghost use Rattle.fort_tuple_symbols.specs.RowDigits.{entry_in, IsCanonical, inside_of, inside_again};

    ghost view = { entry_in };

    ghost invariant = { IsCanonical };

    ghost inverse = { inside_of };

    ghost inverse_ok = { inside_again };
}

impl Row {
    pub fn new(sym: TupleSym, kids: &[u32]) -> Row
        requires { length kids.now ≤ 8 }
        ensures symbol { result.symbol ≡ sym }
        ensures kids { result.kids ≡ kids.now }
    {
        let mut states = [0u32; 8];
        states[..kids.len()].copy_from_slice(kids);
        let digits = sym.digits;
        Row {
            len: sym.len,
            digits,
            count: kids.len(),
            kids: states,
        }
    }

    /// Becomes the entry of a symbol's digits and these states.
    pub fn put(&mut self, digits: &[u32], kids: &[u32])
        requires short { length digits.now ≤ 16 }
        requires small { (k : ℕ) → slice_index_or digits.now k 0 ≤ 65536 }
        requires few { length kids.now ≤ 8 }
        ensures symbol { self.new.symbol ≡ symbol_of digits.now }
        ensures kids { self.new.kids ≡ kids.now }
    {
        self.len = digits.len();
        self.digits = [0; 16];
        self.digits[..digits.len()].copy_from_slice(digits);
        self.count = kids.len();
        self.kids = [0; 8];
        self.kids[..kids.len()].copy_from_slice(kids);
    }

    /// Keeps its symbol.
    pub fn put_kids(&mut self, kids: &[u32])
        requires { length kids.now ≤ 8 }
        ensures symbol { self.new.symbol ≡ self.old.symbol }
        ensures kids { self.new.kids ≡ kids.now }
    {
        self.count = kids.len();
        self.kids = [0; 8];
        self.kids[..kids.len()].copy_from_slice(kids);
    }

    /// Keeps its symbol; two states are written without a call that copies.
    pub fn put_pair(&mut self, first: u32, second: u32)
        ensures symbol { self.new.symbol ≡ self.old.symbol }
        ensures kids { self.new.kids ≡ first ∷ second ∷ [] }
    {
        self.count = 2;
        self.kids = [first, second, 0, 0, 0, 0, 0, 0];
    }

    /// The last column's digit is one more.
    pub fn raise_last(&mut self)
        requires { (ds : List ℕ) × (d : ℕ) × (self.old.symbol ≡ symbol_of (ds ++ d ∷ []))
            × (d < 65536) }
        ensures symbol { (ds : List ℕ) (d : ℕ) → self.old.symbol ≡ symbol_of (ds ++ d ∷ [])
            → self.new.symbol ≡ symbol_of (ds ++ (d + 1) ∷ []) }
        ensures kids { self.new.kids ≡ self.old.kids }
    {
        let last = self.len - 1;
        self.digits[last] += 1;
    }

    /// 0 stands for absent, and one more than its number for a symbol.
    pub fn digits(&self) -> &[u32]
        ensures digits { result.now ≡ map digit_of self.now.symbol }
        ensures few { length result.now ≤ 16 }
        ensures small { (k : ℕ) → slice_index_or result.now k 0 ≤ 65536 }
    {
        let digits = &self.digits;
        &digits[..self.len]
    }

    pub fn sym(&self) -> TupleSym
        ensures { result ≡ self.now.symbol }
    {
        TupleSym {
            len: self.len,
            digits: self.digits,
        }
    }

    /// The symbol of a column of its tuple symbol.
    pub fn symbol(&self, column: usize) -> Option<Sym>
        requires { column < length self.now.symbol }
        ensures { slice_get self.now.symbol column ≡ Some (as_column result) }
    {
        let digits = &self.digits;
        let digit = digits[column];
        if digit == 0 {
            None
        } else {
            Some(Sym((digit - 1) as u16))
        }
    }

    pub fn kids(&self) -> &[u32]
        ensures states { result.now ≡ self.now.kids }
        ensures few { length result.now ≤ 8 }
    {
        let kids = &self.kids;
        &kids[..self.count]
    }

    /// Bit i for column i.
    pub fn presence(&self) -> u16
        ensures { result ≡ presence self.now.symbol }
    {
        let digits = &self.digits;
        presence_of(&digits[..self.len]) as u16
    }

    /// Whether it is the entry of this tuple symbol and these states.
    pub fn is_entry(&self, sym: &TupleSym, kids: &[u32]) -> bool
        ensures { IsTrue result ↔ (self.now ≡ entry sym.now kids.now) }
    {
        self.sym().is_same(sym) && self.kids() == kids
    }
}
