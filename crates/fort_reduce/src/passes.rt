//! Passes over the entries of a table, which split classes until each entry leads where it leads with its children's leaders.
ghost use Rattle.std.specs.Prelude.{◌≡◌, ℕ, ◌+◌, ◌<◌, ◌≤◌, ◌^◌, [], take, length, None, OnOk, IfOk};
ghost use Rattle.fort_tables.specs.Tuples.{IsTupleSymbol, AreSymbols, symbol_kids};
ghost use Rattle.fort_tables.specs.Entries.{Entry, entry};
ghost use Rattle.fort_tables.specs.Tables.{listed_table, IsTableEntry};
ghost use Rattle.fort_tables.specs.Refinement.{IsRefined, PassesAt};
ghost use Rattle.fort_tables.specs.Merges.{IsCoarsest};
ghost use Rattle.fort_target_lists.specs.ClassLists.{IsClassListOf};
ghost use Rattle.fort_target_lists.specs.Flats.{IsFlatOf};
ghost use Rattle.fort_target_lists.specs.TargetLists.{IsTargetListOf};
ghost use Rattle.fort_reduce.specs.Walks.{IsWalked, IsWholeIn, AreWholeUnder, MayBegin};

use crate::classes::Classes;
use crate::front::Front;
use crate::led::{is_led, leader_of, put_leaders, row_with};
use crate::renumber::renumber;
use crate::split::{split, target_with};
use crate::start::start;
use crate::targets::Targets;
use crate::walk::presences;
use fort_lockstep::Dta;
use fort_table::Table;
use fort_target_lists::{
    ClassList, ClassReader, FlatTargets, TargetList, is_present, kid_count, kid_presence,
};
use fort_tuple_symbols::{Row, TupleSym};
use std::alloc::{AllocError, Global};

/// Splits the class of child `j`, where the entry leads elsewhere with its leader.
fn test(
    alloc: Global,
    table: &Dta,
    row: &Row,
    target: u32,
    j: usize,
    classes: &mut Classes,
) -> Result<(), AllocError>
    requires entry { IsTableEntry (listed_table table.now) row.now }
    requires target { target ≡ (listed_table table.now).target row.now }
    requires child { j < length row.now.kids }
    requires few { length table.now.presences < 2 ^ 32 }
    requires refined { IsRefined (listed_table table.now) classes.old.of.items
        classes.old.leaders.items }
    ensures refined { OnOk result (IsRefined (listed_table table.now) classes.new.of.items
        classes.new.leaders.items) }
    ensures walked { OnOk result (IsWalked
        (PassesAt (listed_table table.now) classes.old.of.items classes.old.leaders.items
        row.now j) classes.old.of.items classes.old.leaders.items classes.new.of.items
        classes.new.leaders.items) }
{
    let _states = table.states();
    let sym = row.sym();
    let kids = row.kids();
    let own = kids[j];
    let class = classes.of[own as usize];
    let leader = classes.leaders[class as usize];
    if leader == own {
        return Ok(());
    }
    let there = target_with(table, &sym, kids, j, leader);
    let stays = classes.of[there as usize];
    if classes.of[target as usize] == stays {
        return Ok(());
    }
    let fresh = classes.leaders.len() as u32;
    let next = split(
        alloc,
        table,
        classes.of.as_slice(),
        &sym,
        kids,
        j,
        class,
        stays,
        fresh,
    )?;
    classes.leaders.push(own)?;
    classes.of = next;
    Ok(())
}

/// Tests one child after another, each with the leaders of those before it, until a class is split.
fn chain(
    alloc: Global,
    targets: &Targets,
    kids: &[u32],
    classes: &mut Classes,
) -> Result<(), AllocError>
    requires entry { IsTableEntry (listed_table targets.now.table.now) (entry targets.now.symbol
        kids.now) }
    requires few_kids { length kids.now ≤ 8 }
    requires few { length targets.now.table.now.presences < 2 ^ 32 }
    requires refined { IsRefined (listed_table targets.now.table.now) classes.old.of.items
        classes.old.leaders.items }
    ensures refined { OnOk result (IsRefined (listed_table targets.now.table.now)
        classes.new.of.items classes.new.leaders.items) }
    ensures walked { OnOk result (IsWalked (IsWholeIn (listed_table targets.now.table.now)
        classes.old.of.items classes.old.leaders.items (entry targets.now.symbol kids.now))
        classes.old.of.items classes.old.leaders.items classes.new.of.items
        classes.new.leaders.items) }
{
    let _lawful = targets.table.states();
    let mut row = Row::new(targets.symbol, kids);
    for j in 0..kids.len() {
        let target = targets.target(row.kids());
        let count = classes.leaders.len();
        test(alloc, targets.table, &row, target, j, classes)?;
        if classes.leaders.len() != count {
            return Ok(());
        }
        let leader = leader_of(classes, kids[j]);
        row = row_with(&row, j, leader);
    }
    Ok(())
}

/// Compares where an entry leads with where its children's leaders do, and splits a class where the classes differ.
fn visit(
    alloc: Global,
    targets: &Targets,
    kids: &[u32],
    classes: &mut Classes,
) -> Result<(), AllocError>
    requires entry { IsTableEntry (listed_table targets.now.table.now) (entry targets.now.symbol
        kids.now) }
    requires few_kids { length kids.now ≤ 8 }
    requires few { length targets.now.table.now.presences < 2 ^ 32 }
    requires refined { IsRefined (listed_table targets.now.table.now) classes.old.of.items
        classes.old.leaders.items }
    ensures refined { OnOk result (IsRefined (listed_table targets.now.table.now)
        classes.new.of.items classes.new.leaders.items) }
    ensures walked { OnOk result (IsWalked (IsWholeIn (listed_table targets.now.table.now)
        classes.old.of.items classes.old.leaders.items (entry targets.now.symbol kids.now))
        classes.old.of.items classes.old.leaders.items classes.new.of.items
        classes.new.leaders.items) }
{
    let _lawful = targets.table.states();
    if is_led(kids, classes) {
        return Ok(());
    }
    let mut states = [0u32; 8];
    put_leaders(kids, classes, states.as_mut_slice());
    let there = targets.target(&states[..kids.len()]);
    let target = targets.target(kids);
    if classes.of[target as usize] == classes.of[there as usize] {
        return Ok(());
    }
    chain(alloc, targets, kids, classes)
}

/// Visits the entries of a tuple symbol over first child states, `j` of them, and one other.
fn visit_last(
    alloc: Global,
    targets: &Targets,
    presences: &[u16],
    kids: &mut [u32],
    j: usize,
    classes: &mut Classes,
) -> Result<(), AllocError>
    requires presences { presences.now ≡ targets.now.table.now.presences }
    requires symbol { IsTupleSymbol targets.now.table.now.signature targets.now.table.now.columns
        targets.now.symbol }
    requires count { symbol_kids targets.now.table.now.signature targets.now.symbol ≡ j + 1 }
    requires few_kids { j < 8 }
    requires room { length kids.old ≡ 8 }
    requires before { MayBegin (listed_table targets.now.table.now) targets.now.symbol (take j
        kids.old) }
    requires few { length targets.now.table.now.presences < 2 ^ 32 }
    requires refined { IsRefined (listed_table targets.now.table.now) classes.old.of.items
        classes.old.leaders.items }
    ensures refined { OnOk result (IsRefined (listed_table targets.now.table.now)
        classes.new.of.items classes.new.leaders.items) }
    ensures walked { OnOk result (IsWalked (AreWholeUnder (listed_table targets.now.table.now)
        classes.old.of.items classes.old.leaders.items targets.now.symbol (take j kids.old) 1)
        classes.old.of.items classes.old.leaders.items classes.new.of.items
        classes.new.leaders.items) }
    ensures kept { OnOk result (take j kids.new ≡ take j kids.old) }
{
    let want = kid_presence(targets.table.signature(), &targets.symbol, j);
    let mut front = Front::of(targets, &kids[..j], classes);
    for q in 0..presences.len() {
        if presences[q] == want {
            kids[j] = q as u32;
            if !front.is_whole(targets, &kids[..j + 1], classes) {
                chain(alloc, targets, &kids[..j + 1], classes)?;
                front = Front::of(targets, &kids[..j], classes);
            }
        }
    }
    Ok(())
}

/// Visits the entries of a tuple symbol over first child states, `j` of them, and `rest` others.
fn visit_kids(
    alloc: Global,
    targets: &Targets,
    presences: &[u16],
    kids: &mut [u32],
    j: usize,
    rest: usize,
    classes: &mut Classes,
) -> Result<(), AllocError>
    requires presences { presences.now ≡ targets.now.table.now.presences }
    requires symbol { IsTupleSymbol targets.now.table.now.signature targets.now.table.now.columns
        targets.now.symbol }
    requires count { symbol_kids targets.now.table.now.signature targets.now.symbol ≡ j + rest }
    requires few_kids { j + rest ≤ 8 }
    requires some { 0 < rest }
    requires room { length kids.old ≡ 8 }
    requires before { MayBegin (listed_table targets.now.table.now) targets.now.symbol (take j
        kids.old) }
    requires few { length targets.now.table.now.presences < 2 ^ 32 }
    requires refined { IsRefined (listed_table targets.now.table.now) classes.old.of.items
        classes.old.leaders.items }
    ensures refined { OnOk result (IsRefined (listed_table targets.now.table.now)
        classes.new.of.items classes.new.leaders.items) }
    ensures walked { OnOk result (IsWalked (AreWholeUnder (listed_table targets.now.table.now)
        classes.old.of.items classes.old.leaders.items targets.now.symbol (take j kids.old) rest)
        classes.old.of.items classes.old.leaders.items classes.new.of.items
        classes.new.leaders.items) }
    ensures kept { OnOk result (take j kids.new ≡ take j kids.old) }
{
    if rest == 1 {
        return visit_last(alloc, targets, presences, kids, j, classes);
    }
    let want = kid_presence(targets.table.signature(), &targets.symbol, j);
    for q in 0..presences.len() {
        if presences[q] == want {
            kids[j] = q as u32;
            visit_kids(alloc, targets, presences, kids, j + 1, rest - 1, classes)?;
        }
    }
    Ok(())
}

/// Visits the entries of a tuple symbol.
fn visit_symbol(
    alloc: Global,
    targets: &Targets,
    presences: &[u16],
    classes: &mut Classes,
) -> Result<(), AllocError>
    requires presences { presences.now ≡ targets.now.table.now.presences }
    requires symbols { AreSymbols targets.now.table.now.signature targets.now.symbol }
    requires width { length targets.now.symbol ≡ targets.now.table.now.columns }
    requires few { length targets.now.table.now.presences < 2 ^ 32 }
    requires refined { IsRefined (listed_table targets.now.table.now) classes.old.of.items
        classes.old.leaders.items }
    ensures refined { OnOk result (IsRefined (listed_table targets.now.table.now)
        classes.new.of.items classes.new.leaders.items) }
    ensures walked { OnOk result (IsWalked (AreWholeUnder (listed_table targets.now.table.now)
        classes.old.of.items classes.old.leaders.items targets.now.symbol [] (symbol_kids
        targets.now.table.now.signature targets.now.symbol)) classes.old.of.items
        classes.old.leaders.items classes.new.of.items classes.new.leaders.items) }
{
    if !is_present(&targets.symbol) {
        return Ok(());
    }
    let count = kid_count(targets.table.signature(), &targets.symbol);
    let mut states = [0u32; 8];
    if count == 0 {
        visit(alloc, targets, &states[..0], classes)
    } else {
        let kids = states.as_mut_slice();
        visit_kids(alloc, targets, presences, kids, 0, count, classes)
    }
}

/// Visits each entry once, tuple symbol by tuple symbol.
fn pass(
    alloc: Global,
    table: &Dta,
    list: &FlatTargets,
    presences: &[u16],
    classes: &mut Classes,
) -> Result<(), AllocError>
    requires list { IsFlatOf (listed_table table.now) list.now }
    requires presences { presences.now ≡ table.now.presences }
    requires few { length table.now.presences < 2 ^ 32 }
    requires refined { IsRefined (listed_table table.now) classes.old.of.items
        classes.old.leaders.items }
    ensures refined { OnOk result (IsRefined (listed_table table.now) classes.new.of.items
        classes.new.leaders.items) }
    ensures walked { OnOk result (IsWalked
        ((e : Entry) → IsTableEntry (listed_table table.now) e
        → IsWholeIn (listed_table table.now) classes.old.of.items classes.old.leaders.items e)
        classes.old.of.items classes.old.leaders.items classes.new.of.items
        classes.new.leaders.items) }
{
    let base = table.signature().len() + 1;
    let mut symbol = TupleSym::absent(table.columns());
    'symbols: for _ in 0..list.listing.starts.len() {
        let targets = Targets::of(table, list, &symbol);
        visit_symbol(alloc, &targets, presences, classes)?;
        symbol.to_next(base);
    }
    Ok(())
}

/// Visits the first entry of each state, the last state first: most of what separates states stands at later ones.
fn sweep(
    alloc: Global,
    table: &Dta,
    list: &FlatTargets,
    classes: &mut Classes,
) -> Result<(), AllocError>
    requires list { IsFlatOf (listed_table table.now) list.now }
    requires few { length table.now.presences < 2 ^ 32 }
    requires refined { IsRefined (listed_table table.now) classes.old.of.items
        classes.old.leaders.items }
    ensures refined { OnOk result (IsRefined (listed_table table.now) classes.new.of.items
        classes.new.leaders.items) }
    ensures more { OnOk result (length classes.old.leaders.items
        ≤ length classes.new.leaders.items) }
{
    let _lawful = table.entries();
    let states = table.states();
    for i in 0..states {
        let row = table.first(states - 1 - i);
        let targets = Targets::of(table, list, &row.sym());
        visit(alloc, &targets, row.kids(), classes)?;
    }
    Ok(())
}

/// `classes_of` by the list of all targets.
fn classes_by(alloc: Global, table: &Dta, list: &TargetList) -> Result<Vec<u32>, AllocError>
    requires list { IsTargetListOf (listed_table table.now) list.now }
    requires all { list.now.by_classes ≡ None }
    ensures { IfOk result (λ new. IsCoarsest (listed_table table.now) new.items) }
{
    // its clause says that the table is lawful
    let _listed = table.entries();
    let Some(list) = list.flat() else {
        // a table without entries has no states
        return Ok(Vec::new(alloc));
    };
    let presences = presences(alloc, table)?;
    let mut classes = start(alloc, table)?;
    'passes: loop {
        sweep(alloc, table, list, &mut classes)?;
        let count = classes.leaders.len();
        pass(alloc, table, list, presences.as_slice(), &mut classes)?;
        if classes.leaders.len() == count {
            return renumber(alloc, classes.of.as_slice(), count);
        }
    }
}

/// The list of all targets of a table that keeps them by classes.
fn laid_list(alloc: Global, table: &Dta, kept: &ClassList) -> Result<TargetList, AllocError>
    requires { IsClassListOf (listed_table table.now) kept.now }
    ensures list { IfOk result (IsTargetListOf (listed_table table.now)) }
    ensures all { IfOk result (λ l. l.by_classes ≡ None) }
{
    // its clause says that the table is lawful
    let _listed = table.entries();
    let presences = presences(alloc, table)?;
    let mut reader = ClassReader::new(kept);
    let read = presences.as_slice();
    TargetList::laid_by(alloc, table.signature(), table.columns(), read, &mut reader)
}

/// The class of each state, numbered by first state: two tuples of states have one class exactly where they are interchangeable.
pub fn classes_of(alloc: Global, table: &Dta) -> Result<Vec<u32>, AllocError>
    ensures { IfOk result (λ new. IsCoarsest (listed_table table.now) new.items) }
{
    let list = table.list();
    match list.by_classes() {
        None => classes_by(alloc, table, list),
        Some(kept) => {
            let laid = laid_list(alloc, table, kept)?;
            classes_by(alloc, table, &laid)
        }
    }
}
