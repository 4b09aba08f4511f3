//! Connectives of answers.
ghost use Rattle.std.specs.Prelude.{◌≡◌, ℕ, ◌<◌, List, length, IfSome};
ghost use Rattle.fort_theory.specs.Cores as theory;
ghost use Rattle.fort_tables.specs.Tables.{listed_table};
ghost use Rattle.fort_products.specs.Operands as algebra;
ghost use Rattle.fort_connectives.specs.ConnectiveView.{connective_of};
ghost use Rattle.fort_parts.specs.PartSteps.{operand_of};
ghost use Rattle.fort_target_lists.specs.TargetLists.{IsOperandList};
ghost use Rattle.fort_parts.specs.PartAnswers.{Answer};
ghost use Rattle.fort_engine.specs.AnswerView.{as_answer};
ghost use Rattle.fort_engine.specs.ClassedView.{AreClassed};
ghost use Rattle.fort_engine.specs.Deciding.{AreJoined, IsDecision, IsJoining};

use crate::answer::{Decided, Last};
use crate::by_keys::{explored_by_keys, is_branching};
use crate::classed::ClassedAnswer;
use crate::explored::explored;
use crate::operands::Answered;
use crate::options::Options;
use fort_connectives::Op;
use fort_explore::ExploreFault;
use fort_labels::ByRule;
use fort_lockstep::Dta;
use fort_outline::places_among;
use fort_product_keys::ProductKeys;
use fort_products::{Both, Operand};
use fort_target_lists::TargetList;
use fort_terms::System;
use std::alloc::Global;

/// An answer as an operand of a product.
fn operand<'a>(answer: &'a Last, places: &'a [usize]) -> Operand<'a, Dta>
    ensures { algebra.operand_of listed_table result ≡ operand_of (as_answer answer.now)
        places.now }
{
    match answer {
        Last::Auto(table) => Operand::Auto(table, places),
        Last::Truth(truth) => Operand::Truth(*truth),
    }
}

/// The list of an answer's targets; a truth has none.
fn list_of(answer: &Last) -> Option<&TargetList>
    ensures { (places : List ℕ) → IfSome result (λ l. IsOperandList
        (operand_of (as_answer answer.now) places) l.now) }
{
    match answer {
        Last::Auto(table) => Some(table.list()),
        Last::Truth(_) => None,
    }
}

/// Decides the formula that joins two answers, which have their columns at these places among the formula's.
fn product_by_entries<'a>(
    alloc: Global,
    system: &System,
    op: Op,
    first: &'a Last,
    places: &'a [usize],
    second: &'a Last,
    others: &'a [usize],
    columns: usize,
    options: &Options,
) -> Result<Decided, ExploreFault>
    requires { (h f g : theory.Core) × IsJoining system.now options.now (connective_of op) h f g
        (as_answer first.now) places.now (as_answer second.now) others.now columns }
    ensures { (h f g : theory.Core) → IsJoining system.now options.now (connective_of op) h f g
        (as_answer first.now) places.now (as_answer second.now) others.now columns
        → IsDecision system.now options.now h result }
{
    let (one, other) = (operand(first, places), operand(second, others));
    let product = Both::new(op, one, other, columns).listed(list_of(first), list_of(second));
    explored(alloc, system, &ByRule(&product), options)
}

/// The product of two answers whose tables' states stand in classes.
fn classed_product<'b, 'a>(
    alloc: Global,
    system: &System,
    op: Op,
    first: &'b ClassedAnswer<'a>,
    places: &'b [usize],
    second: &'b ClassedAnswer<'a>,
    others: &'b [usize],
    columns: usize,
    options: &Options,
) -> Result<Decided, ExploreFault>
    requires { (h f g : theory.Core) × (a b : Answer)
        × IsJoining system.now options.now (connective_of op) h f g a places.now b others.now
        columns × AreClassed a places.now first.now b others.now second.now }
    ensures { (h f g : theory.Core) (a b : Answer)
        → IsJoining system.now options.now (connective_of op) h f g a places.now b others.now
        columns → AreClassed a places.now first.now b others.now second.now
        → IsDecision system.now options.now h result }
{
    let (one, other) = (first.operand(places), second.operand(others));
    let product = Both::new(op, one, other, columns).listed(first.list(), second.list());
    let keys = ProductKeys::new(&product);
    explored_by_keys(alloc, system, &ByRule(&product), &keys, options)
}

/// The same by the classes of the operands' states.
fn product_by_classes(
    alloc: Global,
    system: &System,
    op: Op,
    first: &Last,
    places: &[usize],
    second: &Last,
    others: &[usize],
    columns: usize,
    options: &Options,
) -> Result<Decided, ExploreFault>
    requires { (h f g : theory.Core) × IsJoining system.now options.now (connective_of op) h f g
        (as_answer first.now) places.now (as_answer second.now) others.now columns }
    ensures { (h f g : theory.Core) → IsJoining system.now options.now (connective_of op) h f g
        (as_answer first.now) places.now (as_answer second.now) others.now columns
        → IsDecision system.now options.now h result }
{
    let one = ClassedAnswer::of(alloc, first)?;
    let other = ClassedAnswer::of(alloc, second)?;
    classed_product(
        alloc, system, op, &one, places, &other, others, columns, options,
    )
}

/// The same, by classes where they save most entries.
fn product_table<'a>(
    alloc: Global,
    system: &System,
    op: Op,
    first: &'a Last,
    places: &'a [usize],
    second: &'a Last,
    others: &'a [usize],
    columns: usize,
    options: &Options,
) -> Result<Decided, ExploreFault>
    requires { (h f g : theory.Core) × IsJoining system.now options.now (connective_of op) h f g
        (as_answer first.now) places.now (as_answer second.now) others.now columns }
    ensures { (h f g : theory.Core) → IsJoining system.now options.now (connective_of op) h f g
        (as_answer first.now) places.now (as_answer second.now) others.now columns
        → IsDecision system.now options.now h result }
{
    if is_branching(system.signature()) {
        product_by_classes(
            alloc, system, op, first, places, second, others, columns, options,
        )
    } else {
        product_by_entries(
            alloc, system, op, first, places, second, others, columns, options,
        )
    }
}

/// Decides a formula with these columns, of two operands, by their product.
fn join_tables(
    alloc: Global,
    system: &System,
    op: Op,
    columns: &[u32],
    first: &Answered<'_>,
    second: &Answered<'_>,
    options: &Options,
) -> Result<Decided, ExploreFault>
    requires two { (h f g : theory.Core) × AreJoined system.now options.now (connective_of op) h f g
        columns.now first.now.columns.now second.now.columns.now (as_answer first.now.answer.now)
        (as_answer second.now.answer.now) }
    requires some { 0 < length columns.now }
    ensures { (h f g : theory.Core) → AreJoined system.now options.now (connective_of op) h f g
        columns.now first.now.columns.now second.now.columns.now (as_answer first.now.answer.now)
        (as_answer second.now.answer.now) → IsDecision system.now options.now h result }
{
    let places = places_among(alloc, columns, first.columns)?;
    let others = places_among(alloc, columns, second.columns)?;
    product_table(
        alloc,
        system,
        op,
        first.answer,
        &places,
        second.answer,
        &others,
        columns.len(),
        options,
    )
}

/// Decides a formula with these columns, of two operands.
pub(crate) fn join(
    alloc: Global,
    system: &System,
    op: Op,
    columns: &[u32],
    first: &Answered<'_>,
    second: &Answered<'_>,
    options: &Options,
) -> Result<Decided, ExploreFault>
    requires { (h f g : theory.Core) × AreJoined system.now options.now (connective_of op) h f g
        columns.now first.now.columns.now second.now.columns.now (as_answer first.now.answer.now)
        (as_answer second.now.answer.now) }
    ensures { (h f g : theory.Core) → AreJoined system.now options.now (connective_of op) h f g
        columns.now first.now.columns.now second.now.columns.now (as_answer first.now.answer.now)
        (as_answer second.now.answer.now) → IsDecision system.now options.now h result }
{
    match first.answer {
        Last::Truth(a) => match second.answer {
            Last::Truth(b) => Ok(Decided::truth(op.connect(*a, *b))),
            Last::Auto(_) => join_tables(alloc, system, op, columns, first, second, options),
        },
        Last::Auto(_) => join_tables(alloc, system, op, columns, first, second, options),
    }
}
