//! Classes of a table's states by marking pairs, for tables of at most eight states.

use super::small_tables::PlainTable;
use fort_lockstep::Dta;
use fort_table::Table;
use fort_tuple_symbols::Row;
use std::alloc::{AllocError, Global};

fn is_marked(marks: &[bool], p: u32, q: u32) -> bool {
    marks
        .get(p as usize * 8 + q as usize)
        .copied()
        .unwrap_or(true)
}

fn mark(marks: &mut [bool], p: u32, q: u32) {
    let place = p as usize * 8 + q as usize;
    if place < marks.len() {
        marks[place] = true;
    }
}

/// Marks the states whose presence or acceptance is another one than this state's.
fn mark_unlike(table: &Dta, p: u32, marks: &mut [bool]) {
    for q in 0..table.states() {
        if p < table.states() {
            let is_like = table.presence(p) == table.presence(q);
            if !is_like || table.is_final(p) != table.is_final(q) {
                mark(marks, p, q);
            }
        }
    }
}

/// Two entries that differ in one child alone.
#[derive(Clone, Copy)]
pub struct Exchange {
    kids: (u32, u32),
    targets: (u32, u32),
}

/// The two children, where the entries differ in one child alone.
fn other_child(one: &Row, other: &Row) -> Option<(u32, u32)> {
    if !one.is_entry(&other.sym(), one.kids()) {
        return None;
    }
    let mut pair = None;
    for (p, q) in one.kids().iter().zip(other.kids().iter()) {
        if p != q {
            if pair.is_some() {
                return None;
            }
            pair = Some((*p, *q));
        }
    }
    pair
}

/// Adds the exchanges of a child of this entry.
fn add_exchanges(
    row: &Row,
    target: u32,
    given: &PlainTable,
    exchanges: &mut Vec<Exchange>,
) -> Result<(), AllocError> {
    for (other, there) in given.rows.iter().zip(given.targets.iter()) {
        if let Some(kids) = other_child(row, other) {
            exchanges.push(Exchange {
                kids,
                targets: (target, *there),
            })?;
        }
    }
    Ok(())
}

/// The exchanges of one child of an entry.
pub fn exchanges_of(alloc: Global, given: &PlainTable) -> Result<Vec<Exchange>, AllocError> {
    let mut exchanges = Vec::new(alloc);
    for (row, target) in given.rows.iter().zip(given.targets.iter()) {
        add_exchanges(row, *target, given, &mut exchanges)?;
    }
    Ok(exchanges)
}

/// Marks pairs of children whose entries lead to a marked pair; answers whether there is a new one.
fn mark_round(exchanges: &[Exchange], marks: &mut [bool]) -> bool {
    let mut is_more = false;
    for exchange in exchanges {
        let (p, q) = exchange.kids;
        let (there, other) = exchange.targets;
        if is_marked(marks, there, other) && !is_marked(marks, p, q) {
            mark(marks, p, q);
            is_more = true;
        }
    }
    is_more
}

/// Marks pairs until no entry leads another pair to a marked one.
fn mark_all(table: &Dta, exchanges: &[Exchange], marks: &mut [bool]) {
    for p in 0..table.states() {
        mark_unlike(table, p, marks);
    }
    for _ in 0..64 {
        if !mark_round(exchanges, marks) {
            return;
        }
    }
}

/// The class of the first state that isn't marked with this one; the next number where there is none.
fn class_of(marks: &[bool], classes: &[u32], q: u32, next: u32) -> u32 {
    let mut p = 0u32;
    for class in classes {
        if !is_marked(marks, p, q) {
            return *class;
        }
        p = p.saturating_add(1);
    }
    next
}

/// The class of each state, numbered by first state.
pub fn plain_classes(
    alloc: Global,
    table: &Dta,
    exchanges: &[Exchange],
) -> Result<Vec<u32>, AllocError> {
    let mut marks = [false; 64];
    mark_all(table, exchanges, marks.as_mut_slice());
    let mut classes = Vec::new(alloc);
    let mut next = 0u32;
    for q in 0..table.states() {
        let class = class_of(marks.as_slice(), classes.as_slice(), q, next);
        classes.push(class)?;
        next = next.max(class.saturating_add(1));
    }
    Ok(classes)
}
