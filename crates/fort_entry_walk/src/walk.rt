//! The walk through all entries in their order.
ghost use Rattle.std.specs.Prelude.{◌≡◌, ℕ, ◌^◌, ◌+◌, ◌-◌, ◌<◌, ◌≤◌, List, [], ◌∷◌, ◌++◌, length, replicate, slice_index_or, IfSome, true, false};
ghost use Rattle.fort_tables.specs.Entries.{no_entry, stage as stage_of};
ghost use Rattle.fort_entry_walk.specs.WalkPlaces.{AreArities, wants, place, entry_at, IsPlace, IsStep};
ghost use Rattle.fort_tuple_symbols.specs.Columns.{symbol_of};
ghost use Rattle.fort_entry_walk.specs.Walks.{digits_after, stage_kids, stage_kids_after, stage_entries, GivesFirst, some_if};
ghost use Rattle.fort_tuple_symbols.specs.DigitNumbers.{AreUpTo};
ghost use Rattle.fort_entry_walk.specs.WalkFacts.{IsFound, IsFirstAfter, IsNextInStage, IsAlone, IsRaised, IsSameButDigits, IsNextKids, IsLastKids};
ghost use Rattle.fort_entry_walk.specs.KidPairs.{pair_list, two_kids};

use crate::candidates::{Arities, has_next_constant, stage_range, to_next_candidate};
use crate::digit_row::DigitRow;
use crate::kid_lists::{first_kids, next_kids, next_pair, only_kid};
use crate::kid_row::{KidPair, KidRow};
use fort_terms::Signature;
use fort_tuple_symbols::{Row, TupleSym, most_kids, presence_at};

/// The presences of the children.
fn wants_of(sig: &Signature, digits: &[u32]) -> KidRow
    requires few { length digits.now ≤ 16 }
    requires symbols { AreUpTo (length sig.now) digits.now }
    ensures { result ≡ wants sig.now (symbol_of digits.now) }
{
    let count = most_kids(sig, digits);
    let mut row = KidRow::empty();
    for i in 0..count {
        row = row.with_first(presence_at(sig, digits, count - 1 - i));
    }
    row
}

fn stage_first(wanted: &[u32], presences: &[u16], stage: u32) -> Option<KidRow>
    requires few { length wanted.now ≤ 8 }
    requires within { stage ≤ length presences.now }
    ensures states { IfSome result (λ ks. AreUpTo (stage - 1) ks) }
    ensures stage_is { IfSome result (λ ks. stage_of ks ≡ stage) }
    ensures next { GivesFirst (stage_kids presences.now stage wanted.now) (stage_kids_after
        presences.now stage wanted.now) result }
{
    match (stage, wanted) {
        (0, []) => Some(KidRow::empty()),
        (0, _) => None,
        (_, [want]) => only_kid(*want, presences, stage - 1),
        _ => first_kids(wanted, presences, stage - 1, false),
    }
}

fn stage_next(wanted: &[u32], presences: &[u16], stage: u32, kids: &[u32]) -> Option<KidRow>
    requires few { length wanted.now ≤ 8 }
    requires within { stage ≤ length presences.now }
    requires numbers { length presences.now < 2 ^ 32 }
    requires stage_is { stage_of kids.now ≡ stage }
    requires states { AreUpTo (stage - 1) kids.now }
    ensures states { IfSome result (λ ks. AreUpTo (stage - 1) ks) }
    ensures stage_is { IfSome result (λ ks. stage_of ks ≡ stage) }
    ensures next { GivesFirst (stage_kids_after presences.now stage wanted.now kids.now)
        (stage_kids_after presences.now stage wanted.now) result }
{
    // an entry with at most one child is the only one of its symbol at its stage
    if kids.len() < 2 {
        None
    } else {
        next_kids(wanted, presences, stage - 1, false, kids)
    }
}

/// The same for two child states.
fn stage_next_pair(wanted: &[u32], presences: &[u16], stage: u32, kids: &[u32]) -> Option<KidPair>
    requires wanted { length wanted.now ≡ 2 }
    requires kids { length kids.now ≡ 2 }
    requires within { stage ≤ length presences.now }
    requires numbers { length presences.now < 2 ^ 32 }
    requires stage_is { stage_of kids.now ≡ stage }
    requires states { AreUpTo (stage - 1) kids.now }
    ensures states { IfSome result (λ p. AreUpTo (stage - 1) (pair_list p)) }
    ensures stage_is { IfSome result (λ p. stage_of (pair_list p) ≡ stage) }
    ensures next { GivesFirst (stage_kids_after presences.now stage wanted.now kids.now)
        (stage_kids_after presences.now stage wanted.now) (two_kids result) }
{
    next_pair(wanted[0], wanted[1], presences, stage - 1, kids[0], kids[1])
}

/// A walk through all entries in their order.
#[derive(Drop)]
pub struct Walk {
    pub stage: u32,
    pub digits: DigitRow,
    pub kids: KidRow,
    /// The presences of the children.
    pub wanted: KidRow,
    pub arities: Arities,
}

impl Walk {
    pub fn new(sig: &Signature, columns: usize) -> Walk
        requires { columns ≤ 16 }
        ensures start { entry_at (place result) ≡ no_entry columns }
        ensures place { IsPlace sig.now (place result) }
        ensures arities { AreArities sig.now result.arities }
        ensures width { length result.digits ≡ columns }
    {
        Walk {
            stage: 0,
            digits: DigitRow::zeros(columns),
            kids: KidRow::empty(),
            wanted: KidRow::empty(),
            arities: Arities::of(sig),
        }
    }

    pub fn copy(&self) -> Walk
        ensures { result ≡ self.now }
    {
        Walk {
            stage: self.stage,
            digits: self.digits.copy(),
            kids: self.kids.copy(),
            wanted: self.wanted.copy(),
            arities: self.arities,
        }
    }

    /// The entry at which the walk stands.
    pub fn row(&self) -> Row
        requires few { length self.now.digits ≤ 16 }
        requires small { (k : ℕ) → slice_index_or self.now.digits k 0 ≤ 65536 }
        ensures { result ≡ entry_at (place self.now) }
    {
        Row::new(
            TupleSym::from_digits(self.digits.digits()),
            self.kids.states(),
        )
    }

    /// Writes the entry at which the walk stands over a row.
    fn write_row(&self, row: &mut Row)
        requires few { length self.now.digits ≤ 16 }
        requires small { (k : ℕ) → slice_index_or self.now.digits k 0 ≤ 65536 }
        ensures { row.new ≡ entry_at (place self.now) }
    {
        row.put(self.digits.digits(), self.kids.states());
    }

    /// Goes to the first entry of this stage whose symbol comes after the digits; where there is none, the digits are any.
    fn find_in_stage(&mut self, sig: &Signature, presences: &[u16], stage: u32) -> bool
        requires symbols { AreUpTo (length sig.now) self.old.digits }
        requires arities { AreArities sig.now self.old.arities }
        requires within { stage ≤ length presences.now }
        ensures width { length self.new.digits ≡ length self.old.digits }
        ensures arities { self.new.arities ≡ self.old.arities }
        ensures next { IsNextInStage sig.now presences.now stage self.old.digits
            (some_if result self.new) }
        ensures none { result ≡ false → IsSameButDigits self.old self.new }
    {
        let range = stage_range(self.arities.most, presences, stage);
        let flat = self.arities.flat;
        'symbols: while to_next_candidate(sig, flat, range, &mut self.digits) {
            let wanted = wants_of(sig, self.digits.digits());
            match stage_first(wanted.states(), presences, stage) {
                Some(kids) => {
                    self.stage = stage;
                    self.kids = kids;
                    self.wanted = wanted;
                    return true;
                }
                None => {}
            }
        }
        false
    }

    /// Goes to the first entry of its stage after its digits, or of a later stage; where there is none, the digits are any.
    fn find_after(&mut self, sig: &Signature, presences: &[u16]) -> bool
        requires few { length self.old.digits ≤ 16 }
        requires symbols { AreUpTo (length sig.now) self.old.digits }
        requires arities { AreArities sig.now self.old.arities }
        requires within { self.old.stage ≤ length presences.now }
        requires numbers { length presences.now < 2 ^ 32 }
        ensures width { length self.new.digits ≡ length self.old.digits }
        ensures arities { self.new.arities ≡ self.old.arities }
        ensures next { IsFirstAfter sig.now presences.now self.old.stage self.old.digits
            (some_if result self.new) }
        ensures none { result ≡ false → IsSameButDigits self.old self.new }
    {
        let columns = self.digits.digits().len();
        let mut stage = self.stage;
        'stages: loop {
            if self.find_in_stage(sig, presences, stage) {
                return true;
            }
            if stage as usize == presences.len() {
                return false;
            }
            stage += 1;
            self.digits = DigitRow::zeros(columns);
        }
    }

    /// Goes to the first entry with the last column's next symbol, where neither it nor the one before has arguments; else it stays.
    fn raise_last(&mut self, sig: &Signature, presences: &[u16]) -> bool
        requires place { IsPlace sig.now (place self.old) }
        requires within { self.old.stage ≤ length presences.now }
        ensures arities { self.new.arities ≡ self.old.arities }
        ensures next { result ≡ true → IsFound sig.now presences.now self.old.stage self.old.digits
            (place self.new) }
        ensures stays { result ≡ false → self.new ≡ self.old }
    {
        // its clause says that the signature is lawful
        let _symbols = sig.len();
        let digits = self.digits.digits();
        match digits.split_last() {
            Some((digit, _others)) if has_next_constant(sig, *digit) => {}
            _ => return false,
        }
        match stage_first(self.wanted.states(), presences, self.stage) {
            Some(kids) => {
                self.digits.raise_last();
                self.kids = kids;
                true
            }
            None => false,
        }
    }

    /// Whether the entry is the only one of its symbol at its stage, as one with at most one child is, if these presences have it.
    fn is_alone(&self, presences: &[u16]) -> bool
        requires { stage_of self.now.kids ≡ self.now.stage }
        ensures { result ≡ true → IsAlone presences.now (place self.now) }
    {
        if self.kids.states().len() > 1 || self.stage as usize > presences.len() {
            return false;
        }
        match self.wanted.states() {
            [] => self.stage == 0,
            [want] => self.stage > 0 && u32::from(presences[self.stage as usize - 1]) == *want,
            _ => false,
        }
    }

    /// Raises the last column's digit, where the entry is alone at its stage and neither digit has arguments; else it stays.
    fn raise_constant(&mut self, presences: &[u16]) -> bool
        requires small { (k : ℕ) → slice_index_or self.old.digits k 0 ≤ 65536 }
        requires stage_is { stage_of self.old.kids ≡ self.old.stage }
        ensures raised { result ≡ true → IsRaised presences.now self.old self.new }
        ensures stays { result ≡ false → self.new ≡ self.old }
    {
        if !self.is_alone(presences) {
            return false;
        }
        let flat = self.arities.flat;
        let digits = self.digits.digits();
        match digits.split_last() {
            Some((digit, _others)) if *digit < flat.saturating_sub(1) => {}
            _ => return false,
        }
        self.digits.raise_last();
        true
    }

    /// Goes to the next list of child states of its symbol at its stage, where there is one, and else stays.
    fn advance_kids(&mut self, presences: &[u16]) -> bool
        requires stage_is { stage_of self.old.kids ≡ self.old.stage }
        requires states { AreUpTo (self.old.stage - 1) self.old.kids }
        requires numbers { length presences.now < 2 ^ 32 }
        ensures next { result ≡ true → IsNextKids presences.now self.old self.new }
        ensures none { result ≡ false → IsLastKids presences.now (place self.old) }
        ensures stays { result ≡ false → self.new ≡ self.old }
    {
        if self.stage as usize > presences.len() {
            return false;
        }
        let wanted = self.wanted.states();
        let kids = self.kids.states();
        if kids.len() == 2 && wanted.len() == 2 {
            match stage_next_pair(wanted, presences, self.stage, kids) {
                Some(pair) => {
                    self.kids = KidRow::pair(pair);
                    true
                }
                None => false,
            }
        } else {
            match stage_next(wanted, presences, self.stage, kids) {
                Some(kids) => {
                    self.kids = kids;
                    true
                }
                None => false,
            }
        }
    }

    /// Goes to the first entry with a later symbol of its stage, or of a later stage, where there is one, and else stays.
    // its frame is large, and most entries don't need it
    #[inline(never)]
    pub fn to_next_symbol(&mut self, sig: &Signature, presences: &[u16]) -> bool
        requires place { IsPlace sig.now (place self.old) }
        requires arities { AreArities sig.now self.old.arities }
        requires few { length self.old.digits ≤ 16 }
        requires within { self.old.stage ≤ length presences.now }
        requires numbers { length presences.now < 2 ^ 32 }
        ensures place { IsPlace sig.now (place self.new) }
        ensures width { length self.new.digits ≡ length self.old.digits }
        ensures arities { self.new.arities ≡ self.old.arities }
        ensures next { IsFirstAfter sig.now presences.now self.old.stage self.old.digits
            (some_if result self.new) }
        ensures stays { result ≡ false → self.new ≡ self.old }
    {
        if self.raise_last(sig, presences) {
            return true;
        }
        let digits = self.digits.copy();
        if self.find_after(sig, presences) {
            true
        } else {
            self.digits = digits;
            false
        }
    }

    /// Goes to the next entry with a later symbol or at a later stage, where there is one, and else stays.
    fn advance(&mut self, sig: &Signature, presences: &[u16]) -> bool
        requires place { IsPlace sig.now (place self.old) }
        requires arities { AreArities sig.now self.old.arities }
        requires few { length self.old.digits ≤ 16 }
        requires numbers { length presences.now < 2 ^ 32 }
        requires last { IsLastKids presences.now (place self.old) }
        ensures place { IsPlace sig.now (place self.new) }
        ensures width { length self.new.digits ≡ length self.old.digits }
        ensures arities { self.new.arities ≡ self.old.arities }
        ensures next { IsStep sig.now presences.now (place self.old) (place self.new) result }
    {
        if self.stage as usize > presences.len() {
            return false;
        }
        self.to_next_symbol(sig, presences)
    }

    /// Writes the child states over those of a row.
    fn write_kids(&self, row: &mut Row)
        ensures symbol { row.new.symbol ≡ row.old.symbol }
        ensures kids { row.new.kids ≡ self.now.kids }
    {
        let kids = self.kids.states();
        if kids.len() == 2 {
            row.put_pair(kids[0], kids[1]);
        } else {
            row.put_kids(kids);
        }
    }

    /// Goes to the next entry, where there is one, and else stays; the row becomes that of the entry.
    pub fn advance_row(&mut self, sig: &Signature, presences: &[u16], row: &mut Row) -> bool
        requires place { IsPlace sig.now (place self.old) }
        requires arities { AreArities sig.now self.old.arities }
        requires few { length self.old.digits ≤ 16 }
        requires numbers { length presences.now < 2 ^ 32 }
        requires row { row.old ≡ entry_at (place self.old) }
        ensures place { IsPlace sig.now (place self.new) }
        ensures width { length self.new.digits ≡ length self.old.digits }
        ensures arities { self.new.arities ≡ self.old.arities }
        ensures next { IsStep sig.now presences.now (place self.old) (place self.new) result }
        ensures row { row.new ≡ entry_at (place self.new) }
    {
        // its clause says that the signature is lawful
        let _symbols = sig.len();
        if self.raise_constant(presences) {
            row.raise_last();
            return true;
        }
        if self.advance_kids(presences) {
            self.write_kids(row);
            return true;
        }
        let is_next = self.advance(sig, presences);
        self.write_row(row);
        is_next
    }
}
