//! The table of the classes.
ghost use Rattle.std.specs.Prelude.{◌≡◌, ℕ, ◌<◌, ◌≤◌, ◌^◌, length, slice_index_or, IfOk, OnOk, false};
ghost use Rattle.fort_tables.specs.Tables.{listed_table, IsComplete, IsListed, IsTableEntry};
ghost use Rattle.fort_tables.specs.Merges.{AreNumbered, IsMerge, IsCoarsest, merged};
ghost use Rattle.fort_reduce.specs.MergedTables.{IsMergedTable};
ghost use Rattle.fort_reduce.specs.Merging.{AreFirsts, IsMerging};

use crate::passes::classes_of;
use fort_lockstep::{Dta, Maker};
use fort_table::Table;
use fort_tuple_symbols::Row;
use std::alloc::{AllocError, Global};

/// The first state of each class.
fn firsts_of(alloc: Global, classes: &[u32]) -> Result<Vec<u32>, AllocError>
    requires numbered { AreNumbered classes.now }
    requires few { length classes.now < 2 ^ 32 }
    ensures { IfOk result (λ v. AreFirsts classes.now v.items) }
{
    let mut firsts = Vec::new(alloc);
    for q in 0..classes.len() {
        if classes[q] as usize == firsts.len() {
            firsts.push(q as u32)?;
        }
    }
    Ok(firsts)
}

/// The first states of classes that are children.
fn put_firsts(kids: &[u32], firsts: &[u32], states: &mut [u32])
    requires within { (j : ℕ) → j < length kids.now
        → slice_index_or kids.now j 0 < length firsts.now }
    requires room { length kids.now ≤ length states.old }
    ensures { (j : ℕ) → j < length kids.now → slice_index_or states.new j 0
        ≡ slice_index_or firsts.now (slice_index_or kids.now j 0) 0 }
{
    for j in 0..kids.len() {
        states[j] = firsts[kids[j] as usize];
    }
}

/// The class of the target of an entry over classes.
fn class_target(table: &Dta, classes: &[u32], firsts: &[u32], row: &Row) -> u32
    requires merge { IsMerge (listed_table table.now) classes.now }
    requires firsts { AreFirsts classes.now firsts.now }
    requires entry { IsTableEntry (merged (listed_table table.now) classes.now) row.now }
    ensures { result ≡ (merged (listed_table table.now) classes.now).target row.now }
{
    let _states = table.states();
    let kids = row.kids();
    let mut states = [0u32; 8];
    put_firsts(kids, firsts, states.as_mut_slice());
    let target = table.target(&row.sym(), &states[..kids.len()]);
    classes[target as usize]
}

/// Gives each entry over classes its class.
fn give_classes(
    table: &Dta,
    classes: &[u32],
    firsts: &[u32],
    maker: &mut Maker,
) -> Result<(), AllocError>
    requires listed { IsListed table.now }
    requires merge { IsMerge (listed_table table.now) classes.now }
    requires few { length classes.now < 2 ^ 32 }
    requires firsts { AreFirsts classes.now firsts.now }
    requires merging { IsMerging (listed_table table.now) classes.now maker.old }
    ensures merging { OnOk result (IsMerging (listed_table table.now) classes.now maker.new) }
    ensures complete { OnOk result (IsComplete maker.new) }
{
    'entries: while let Some(row) = maker.due_row() {
        let class = class_target(table, classes, firsts, row);
        maker.give(class)?;
    }
    Ok(())
}

/// Whether the first states are accepted.
fn finals_of(alloc: Global, table: &Dta, firsts: &[u32]) -> Result<Vec<bool>, AllocError>
    requires within { (c : ℕ) → c < length firsts.now
        → slice_index_or firsts.now c 0 < length table.now.presences }
    ensures count { IfOk result (λ v. length v.items ≡ length firsts.now) }
    ensures are { IfOk result (λ v. (c : ℕ) → c < length firsts.now
        → slice_index_or v.items c false
        ≡ slice_index_or table.now.finals (slice_index_or firsts.now c 0) false) }
{
    let mut finals = Vec::new(alloc);
    for c in 0..firsts.len() {
        finals.push(table.is_final(firsts[c]))?;
    }
    Ok(finals)
}

/// The table of these classes.
fn table_of(alloc: Global, table: &Dta, classes: &[u32]) -> Result<Dta, AllocError>
    requires merge { IsMerge (listed_table table.now) classes.now }
    ensures merged { IfOk result (λ t. IsMergedTable (listed_table table.now) classes.now
        (listed_table t)) }
    ensures lawful { IfOk result IsListed }
{
    let _lawful = table.entries();
    let _count = table.states();
    let firsts = firsts_of(alloc, classes)?;
    let finals = finals_of(alloc, table, firsts.as_slice())?;
    // nothing was joined: the table stays, and its entries are shared
    if firsts.len() == classes.len() {
        return Ok(table.with_finals(finals)?);
    }
    let mut maker = Maker::new(alloc, table.signature(), table.columns())?;
    give_classes(table, classes, firsts.as_slice(), &mut maker)?;
    Ok(maker.finish(finals)?)
}

/// The table with interchangeable tuples at one state, and the class of each state: classes are numbered by their first states.
pub fn reduce(alloc: Global, table: &Dta) -> Result<(Dta, Vec<u32>), AllocError>
    ensures classes { IfOk result (λ r. IsCoarsest (listed_table table.now) r.1.items) }
    ensures merged { IfOk result (λ r. IsMergedTable (listed_table table.now) r.1.items
        (listed_table r.0)) }
    ensures lawful { IfOk result (λ r. IsListed r.0) }
{
    let classes = classes_of(alloc, table)?;
    let merged = table_of(alloc, table, classes.as_slice())?;
    Ok((merged, classes))
}
