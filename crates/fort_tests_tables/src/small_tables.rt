//! All tables of few states over a signature, one after another.
ghost use Rattle.std.specs.Prelude.{◌≡◌, ℕ, ◌+◌, ◌-◌, ◌<◌, ◌≤◌, ◌^◌, ◌==◌, ◌++◌, ◌∷◌, [], length, slice_index, slice_index_or, if◌then◌else◌, IfOk, OnOk, IfSome, true, false};
ghost use Rattle.fort_tables.specs.Tables.{full_presence};

use fort_lockstep::{Dta, Maker};
use fort_table::Table;
use fort_terms::Signature;
use fort_tuple_symbols::Row;
use std::alloc::{AllocError, Global};

/// Entries of a table in their order, with their targets.
#[derive(Drop)]
pub struct PlainTable {
    pub rows: Vec<Row>,
    pub targets: Vec<u32>,
}

impl PlainTable {
    pub fn none(alloc: Global) -> PlainTable {
        PlainTable {
            rows: Vec::new(alloc),
            targets: Vec::new(alloc),
        }
    }

    fn push(&mut self, row: Row, target: u32) -> Result<(), AllocError> {
        self.rows.push(row)?;
        self.targets.push(target)?;
        Ok(())
    }

    /// These targets, the last one more: the next table has them or greater ones.
    pub fn next_targets(&self, alloc: Global) -> Result<Vec<u32>, AllocError> {
        let mut next = self.targets.as_slice().to_vec(alloc)?;
        if let Some(last) = next.pop() {
            next.push(last.saturating_add(1))?;
        }
        Ok(next)
    }
}

/// The first target from a number on for an entry of this presence: a state, or a new one while there are fewer than `most`.
fn target_from(presences: &[u16], presence: u16, from: u32, most: usize) -> Option<u32>
    requires few { length presences.now ≤ most }
    requires small { most ≤ 8 }
    ensures known { IfSome result (λ t. t ≤ length presences.now) }
    ensures fits { IfSome result (λ t. t < length presences.now
        → slice_index presences.now t ≡ presence) }
    ensures new { IfSome result (λ t. t ≡ length presences.now → length presences.now < most) }
{
    for q in from as usize..presences.len() {
        if presences[q] == presence {
            return Some(q as u32);
        }
    }
    if from as usize <= presences.len() && presences.len() < most {
        Some(presences.len() as u32)
    } else {
        None
    }
}

/// The presences where an entry of this presence has this target.
fn give_presence(presences: &mut Vec<u16>, presence: u16, target: u32) -> Result<(), AllocError>
    ensures { OnOk result (presences.new.items ≡ (if target == length presences.old.items
        then presences.old.items ++ presence ∷ [] else presences.old.items)) }
{
    if target as usize == presences.len() {
        presences.push(presence)?;
    }
    Ok(())
}

/// No state accepts.
fn no_finals(alloc: Global, count: usize) -> Result<Vec<bool>, AllocError>
    ensures count { IfOk result (λ v. length v.items ≡ count) }
    ensures none { IfOk result (λ v. (q : ℕ) → slice_index_or v.items q false ≡ false) }
{
    let mut finals = Vec::new(alloc);
    for _k in 0..count {
        finals.push(false)?;
    }
    Ok(finals)
}

/// The table whose entries have the least targets from these on; none where some entry has no target left.
pub fn table_from(
    alloc: Global,
    signature: &Signature,
    columns: usize,
    most: usize,
    from: &[u32],
    given: &mut PlainTable,
) -> Result<Option<Dta>, AllocError>
    requires some { 0 < columns }
    requires narrow { columns ≤ 16 }
    requires small { most ≤ 8 }
    ensures { IfOk result (λ t. IfSome t (λ t. t.columns ≡ columns)) }
{
    let mut maker = Maker::new(alloc, signature, columns)?;
    let mut presences = Vec::new(alloc);
    'entries: while let Some(row) = maker.due() {
        let least = from.get(given.targets.len()).copied().unwrap_or(0);
        let presence = row.presence();
        match target_from(presences.as_slice(), presence, least, most) {
            None => return Ok(None),
            Some(target) => {
                give_presence(&mut presences, presence, target)?;
                maker.give(target)?;
                given.push(row, target)?;
            }
        }
    }
    let finals = no_finals(alloc, presences.len())?;
    Ok(Some(maker.finish(finals)?))
}

/// Whether a state accepts, where the next bit says so and it may.
fn accepts(table: &Dta, full: u16, q: u32, rest: u32) -> bool
    requires state { q < length table.now.presences }
    requires full { full ≡ full_presence table.now.columns }
    ensures { result ≡ true
        → slice_index_or table.now.presences q 0 ≡ full_presence table.now.columns }
{
    table.presence(q) == full && rest % 2 == 1
}

/// The truths that the bits of a number give the states that may accept; none where it has more bits.
pub fn finals_from(
    alloc: Global,
    table: &Dta,
    full: u16,
    bits: u32,
) -> Result<Option<Vec<bool>>, AllocError>
    requires { full ≡ full_presence table.now.columns }
    ensures count { IfOk result (λ v. IfSome v (λ v. length v.items
        ≡ length table.now.presences)) }
    ensures full { IfOk result (λ v. IfSome v (λ v. (q : ℕ) → q < length table.now.presences
        → slice_index_or v.items q false ≡ true
        → slice_index_or table.now.presences q 0 ≡ full_presence table.now.columns)) }
{
    let mut finals = Vec::new(alloc);
    let mut rest = bits;
    for q in 0..table.states() {
        finals.push(accepts(table, full, q, rest))?;
        if table.presence(q) == full {
            rest /= 2;
        }
    }
    if rest > 0 { Ok(None) } else { Ok(Some(finals)) }
}
