//! Lists of entries, in little room.
ghost use Rattle.std.specs.Prelude.{◌≡◌, ℕ, ◌+◌, ◌<◌, ◌≤◌, [], ◌∷◌, ◌++◌, length, vec_len, vec_capacity, slice_index_or, OnOk};
ghost use Rattle.fort_tables.specs.Entries.{Entry};
ghost use Rattle.fort_table.specs.EntryListFacts.{entries_in, AreSpans, HasPlace};

use fort_tuple_symbols::{Row, TupleSym};
use std::alloc::{AllocError, Global};

/// Where the digits of an entry begin, how many they are, and how many child states follow them.
#[derive(Clone, Copy)]
pub struct EntrySpan {
    pub start: usize,
    pub digits: u8,
    pub kids: u8,
}

/// A list of entries: the digits and child states of one behind those of another.
#[derive(Drop)]
pub struct EntryList {
    pub spans: Vec<EntrySpan>,
    pub numbers: Vec<u32>,
}

fn append(numbers: &mut Vec<u32>, more: &[u32])
    requires { vec_len numbers.old + length more.now ≤ vec_capacity numbers.old }
    ensures numbers { numbers.new.items ≡ numbers.old.items ++ more.now }
    ensures capacity { vec_capacity numbers.old ≤ vec_capacity numbers.new }
{
    // they are so few that a loop takes less time than a copy
    for k in 0..more.len() {
        numbers.push_reserved(more[k]);
    }
}

impl EntryList {
    pub fn new(alloc: Global) -> EntryList
        ensures { result.spans.items ≡ [] }
    {
        EntryList {
            spans: Vec::new(alloc),
            numbers: Vec::new(alloc),
        }
    }

    /// Room for one more entry.
    pub fn make_room(&mut self) -> Result<(), AllocError>
        ensures spans { self.new.spans.items ≡ self.old.spans.items }
        ensures numbers { self.new.numbers.items ≡ self.old.numbers.items }
        ensures room { OnOk result (HasPlace self.new) }
    {
        self.spans.reserve(1)?;
        self.numbers.reserve(24)
    }

    pub fn push(&mut self, row: &Row)
        requires room { HasPlace self.old }
        requires lawful { AreSpans self.old.numbers.items self.old.spans.items }
        ensures lawful { AreSpans self.new.numbers.items self.new.spans.items }
        ensures entries { entries_in self.new.numbers.items self.new.spans.items
            ≡ entries_in self.old.numbers.items self.old.spans.items ++ row.now ∷ [] }
    {
        let digits = row.digits();
        let kids = row.kids();
        let span = EntrySpan {
            start: self.numbers.len(),
            digits: digits.len() as u8,
            kids: kids.len() as u8,
        };
        append(&mut self.numbers, digits);
        append(&mut self.numbers, kids);
        self.spans.push_reserved(span);
    }

    pub fn get(&self, place: usize) -> Row
        requires within { place < length self.now.spans.items }
        requires lawful { AreSpans self.now.numbers.items self.now.spans.items }
        ensures { (d : Entry)
            → slice_index_or (entries_in self.now.numbers.items self.now.spans.items) place d
            ≡ result }
    {
        let span = self.spans[place];
        let numbers = self.numbers.as_slice();
        let middle = span.start + span.digits as usize;
        let sym = TupleSym::from_digits(&numbers[span.start..middle]);
        Row::new(sym, &numbers[middle..middle + span.kids as usize])
    }
}
