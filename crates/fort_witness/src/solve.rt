//! The search for the first solutions, height by height, in the order of tuples.
ghost use Rattle.std.specs.Prelude.{◌≡◌, ℕ, ◌<◌, ◌≤◌, ◌&&◌, ◌==◌, [], true, false, length, IfOk};
ghost use Rattle.std.specs.BinaryHeap.{heap_items, heap_len};
ghost use Rattle.fort_tables.specs.Tables.{listed_table};
ghost use Rattle.fort_witness.specs.Answers.{AreSolutions};
ghost use Rattle.fort_witness.specs.Solving.{IsMaking, IsTakenOut, work_left};

use crate::answer::Solutions;
use crate::choices::NodeSpan;
use crate::entries::entries_of;
use crate::head::Head;
use crate::kept::Kept;
use crate::rows::{first_rows, next_row};
use fort_lockstep::Dta;
use fort_table::Table;
use std::alloc::{AllocError, Global};
use std::collections::BinaryHeap;

/// Whether this accepted tuple is one more than most.
fn is_over(accepted: bool, count: usize, most: usize) -> bool
    ensures { result ≡ (accepted && (count == most)) }
{
    accepted && count == most
}

/// Makes a row a node, and the next row of its entry comes into the heap; nothing is made where the
/// row's state is full. Whether it is accepted where the most nodes are already.
fn make_node(
    table: &Dta,
    span: NodeSpan,
    most: usize,
    head: &Head,
    kept: &mut Kept,
    heads: &mut BinaryHeap<Head>,
) -> Result<bool, AllocError>
    requires few { length table.now.presences ≤ 1000000 }
    requires most { most ≤ 1000 }
    requires taken { (h : ℕ) × IsTakenOut (listed_table table.now) most h span.low span.end kept.old
        head.now (heap_items heads.old) }
    ensures done { IfOk result (λ more. more ≡ false → (h : ℕ) → IsTakenOut
        (listed_table table.now) most h span.low span.end kept.old head.now (heap_items heads.old)
        → IsMaking (listed_table table.now) most h span.low span.end kept.new
        (heap_items heads.new)) }
    ensures more { IfOk result (λ more. more ≡ true → (h height : ℕ) → IsTakenOut
        (listed_table table.now) most h span.low span.end kept.old head.now (heap_items heads.old)
        → h ≤ height → AreSolutions (listed_table table.now) height most kept.new.dag
        kept.new.accepted.items true) }
    ensures room { IfOk result (λ more. more ≡ false → work_left (length table.now.presences) most
        (length kept.new.dag) (heap_len heads.new) ≤ work_left (length table.now.presences) most
        (length kept.old.dag) (heap_len heads.old)) }
{
    // its clause says that the table is lawful
    let _states = table.states();
    if most < kept.lists.count(head.state) {
        return Ok(false);
    }
    let accepted = table.is_final(head.state);
    if is_over(accepted, kept.accepted.len(), most) {
        return Ok(true);
    }
    kept.push(head, accepted)?;
    match next_row(&kept.lists, &kept.states, span, &head.row) {
        Some(row) => {
            let state = head.state;
            heads.push(Head { row, state })?;
            Ok(false)
        }
        None => Ok(false),
    }
}

/// Makes rows nodes in their order, for each state one more than most at most; whether more than
/// most of them are accepted.
fn make_nodes(
    table: &Dta,
    span: NodeSpan,
    most: usize,
    kept: &mut Kept,
    heads: &mut BinaryHeap<Head>,
) -> Result<bool, AllocError>
    requires few { length table.now.presences ≤ 1000000 }
    requires most { most ≤ 1000 }
    requires making { (h : ℕ) × IsMaking (listed_table table.now) most h span.low span.end kept.old
        (heap_items heads.old) }
    ensures done { IfOk result (λ more. more ≡ false → (h : ℕ) → IsMaking (listed_table table.now)
        most h span.low span.end kept.old (heap_items heads.old) → IsMaking (listed_table
        table.now) most h span.low span.end kept.new []) }
    ensures empty { IfOk result (λ more. more ≡ false → heap_items heads.new ≡ []) }
    ensures more { IfOk result (λ more. more ≡ true → (h height : ℕ) → IsMaking (listed_table
        table.now) most h span.low span.end kept.old (heap_items heads.old) → h ≤ height
        → AreSolutions (listed_table table.now) height most kept.new.dag
        kept.new.accepted.items true) }
{
    'heads: while let Some(head) = heads.pop() {
        if make_node(table, span, most, &head, kept, heads)? {
            return Ok(true);
        }
    }
    Ok(false)
}

/// The first tuples of terms up to this height that the table accepts; there may be nodes that
/// they don't need.
pub fn solutions(
    alloc: Global,
    table: &Dta,
    height: u32,
    most: usize,
) -> Result<Solutions, AllocError>
    requires some { 0 < most }
    requires few { most ≤ 1000 }
    requires states { length table.now.presences ≤ 1000000 }
    ensures { IfOk result (λ s. AreSolutions (listed_table table.now) height most s.dag
        s.nodes.items s.more) }
{
    let entries = entries_of(alloc, table)?;
    let mut kept = Kept::new(alloc, table.states())?;
    let mut heads = BinaryHeap::new(alloc);
    // its clause says that the table is lawful
    let _states = table.states();
    let mut low = 0u32;
    let mut level = 0u32;
    'heights: loop {
        let end = kept.dag.len() as u32;
        let span = NodeSpan { low, end };
        first_rows(&entries, span, most, &kept, &mut heads)?;
        if heads.is_empty() {
            return Ok(kept.answer(false));
        }
        if make_nodes(table, span, most, &mut kept, &mut heads)? {
            return Ok(kept.answer(true));
        }
        if level == height {
            return Ok(kept.answer(false));
        }
        low = end;
        level += 1;
    }
}
