//! The rows over nodes of an entry, one after another.
ghost use Rattle.std.specs.Prelude.{◌≡◌, ℕ, suc, List, ◌<◌, ◌≤◌, ◌^◌, nat_lt, [], true, false, length, slice_index_or, OnOk, IfSome, IfNone};
ghost use Rattle.std.specs.BinaryHeap.{heap_items, IsHeap};
ghost use Rattle.fort_tables.specs.Entries.{tuples_of};
ghost use Rattle.fort_tables.specs.Tables as tables;
ghost use Rattle.fort_witness.specs.Choices.{AreListed, lists_of, Knows, IsChoice, IsFirstChoice, IsNextChoice};
ghost use Rattle.fort_witness.specs.Heads.{head_cmp};
ghost use Rattle.fort_witness.specs.Making.{AreOld};
ghost use Rattle.fort_witness.specs.Rounds.{states_at};
ghost use Rattle.fort_witness.specs.Solving.{AreEntries, AreKeptNodes, AreFirstRows};

use crate::choices::{NodeSpan, first_kids, next_kids};
use crate::found::over_states;
use crate::head::Head;
use crate::kept::Kept;
use crate::node_lists::NodeLists;
use fort_tuple_symbols::Row;
use std::alloc::AllocError;
use std::collections::BinaryHeap;

/// The first row over nodes of an entry's states.
fn first_row(lists: &NodeLists, span: NodeSpan, entry: &Row) -> Option<Row>
    requires known { Knows (lists_of lists.now) entry.now.kids }
    ensures symbol { IfSome result (λ r. r.symbol ≡ entry.now.symbol) }
    ensures some { IfSome result (λ r. (qs : List ℕ) → AreListed (length (lists_of lists.now)) qs
        (lists_of lists.now) → IsFirstChoice qs span.low span.end entry.now.kids (nat_lt 0
        span.end) 0 r.kids true) }
    ensures none { IfNone result ((qs : List ℕ) → AreListed (length (lists_of lists.now)) qs
        (lists_of lists.now) → (ks : List ℕ) → IsChoice qs span.low span.end entry.now.kids
        (nat_lt 0 span.end) ks → ⊥) }
{
    let states = entry.kids();
    let mut room = [0u32; 8];
    let kids = &mut room[..states.len()];
    if first_kids(lists, span, states, 0 < span.end, 0, kids) {
        Some(Row::new(entry.sym(), kids))
    } else {
        None
    }
}

/// The next row over nodes of the same states.
pub fn next_row(lists: &NodeLists, states: &[u32], span: NodeSpan, row: &Row) -> Option<Row>
    requires within { (j : ℕ) → j < length row.now.kids → slice_index_or row.now.kids j 0
        < length states.now }
    requires known { Knows (lists_of lists.now) (states_at states.now row.now.kids) }
    requires few { length states.now < 2 ^ 32 }
    ensures symbol { IfSome result (λ r. r.symbol ≡ row.now.symbol) }
    ensures some { IfSome result (λ r. AreListed (length (lists_of lists.now)) states.now
        (lists_of lists.now) → IsChoice states.now span.low span.end (states_at states.now
        row.now.kids) (nat_lt 0 span.end) row.now.kids → IsNextChoice states.now span.low span.end
        (states_at states.now row.now.kids) (nat_lt 0 span.end) row.now.kids r.kids true) }
    ensures none { IfNone result (AreListed (length (lists_of lists.now)) states.now
        (lists_of lists.now) → IsChoice states.now span.low span.end (states_at states.now
        row.now.kids) (nat_lt 0 span.end) row.now.kids → IsNextChoice states.now span.low span.end
        (states_at states.now row.now.kids) (nat_lt 0 span.end) row.now.kids [] false) }
{
    let entry = over_states(states, row);
    let old = row.kids();
    let mut room = [0u32; 8];
    let kids = &mut room[..old.len()];
    kids.copy_from_slice(old);
    if next_kids(lists, span, entry.kids(), 0 < span.end, kids) {
        Some(Row::new(row.sym(), kids))
    } else {
        None
    }
}

/// The first row of each entry that may still give its state a node.
pub fn first_rows(
    entries: &[Head],
    span: NodeSpan,
    most: usize,
    kept: &Kept,
    heads: &mut BinaryHeap<Head>,
) -> Result<(), AllocError>
    requires entries { (t : tables.Table) × tables.IsTable t × AreEntries t entries.now
        × AreKeptNodes t (suc most) kept.now }
    requires end { span.end ≡ length kept.now.dag }
    requires empty { heap_items heads.old ≡ [] }
    requires heap { IsHeap head_cmp (heap_items heads.old) }
    ensures { OnOk result ((t : tables.Table) (h : ℕ) → tables.IsTable t → AreEntries t entries.now
        → AreKeptNodes t (suc most) kept.now → AreOld t (suc most) h span.low (tuples_of
        kept.now.dag) → AreFirstRows t (suc most) h span.low (tuples_of kept.now.dag)
        kept.now.states.items entries.now (length entries.now) (heap_items heads.new)) }
{
    for k in 0..entries.len() {
        let entry = &entries[k];
        let state = entry.state;
        if kept.lists.count(state) <= most {
            match first_row(&kept.lists, span, &entry.row) {
                Some(row) => heads.push(Head { row, state })?,
                None => {}
            }
        }
    }
    Ok(())
}
