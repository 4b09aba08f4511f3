//! Projections of answers.
ghost use Rattle.std.specs.Prelude.{◌≡◌, ◌<◌, length};
ghost use Rattle.fort_theory.specs.Cores as theory;
ghost use Rattle.fort_tables.specs.Tables.{listed_table};
ghost use Rattle.fort_tables.specs.Projections.{some_below};
ghost use Rattle.fort_parts.specs.PartAnswers.{OfTable};
ghost use Rattle.fort_engine.specs.AnswerView.{as_answer};
ghost use Rattle.fort_engine.specs.Deciding.{IsBody, IsDecision};

use crate::answer::{Decided, Last};
use crate::by_keys::{explored_by_keys, is_branching};
use crate::explored::explored;
use crate::operands::Answered;
use crate::options::Options;
use fort_classed_tables::ClassedTable;
use fort_explore::ExploreFault;
use fort_lockstep::Dta;
use fort_outline::column_of;
use fort_projection_keys::ProjectionKeys;
use fort_projections::{Project, Projecting};
use fort_table::Table;
use fort_terms::System;
use std::alloc::Global;

/// Whether some state is final.
fn accepts_some(table: &Dta) -> bool
    ensures { result ≡ some_below (length table.now.presences) (listed_table table.now).accepting }
{
    for q in 0..table.states() {
        if table.is_final(q) {
            return true;
        }
    }
    false
}

/// Decides "for some value of this variable" of a formula with other columns.
fn project_by_entries(
    alloc: Global,
    system: &System,
    number: u32,
    columns: &[u32],
    table: &Dta,
    options: &Options,
) -> Result<Decided, ExploreFault>
    requires body { (f : theory.Core) × IsBody system.now options.now number f columns.now
        (OfTable (listed_table table.now)) }
    requires others { 1 < table.now.columns }
    ensures { (f : theory.Core) → IsBody system.now options.now number f columns.now
        (OfTable (listed_table table.now))
        → IsDecision system.now options.now (theory.Exists number f) result }
{
    let projection = Project::new(alloc, table, table.list(), column_of(columns, number))?;
    explored(alloc, system, &Projecting(&projection), options)
}

/// The same by the classes of the body's states.
fn project_by_classes(
    alloc: Global,
    system: &System,
    number: u32,
    columns: &[u32],
    table: &Dta,
    options: &Options,
) -> Result<Decided, ExploreFault>
    requires body { (f : theory.Core) × IsBody system.now options.now number f columns.now
        (OfTable (listed_table table.now)) }
    requires others { 1 < table.now.columns }
    ensures { (f : theory.Core) → IsBody system.now options.now number f columns.now
        (OfTable (listed_table table.now))
        → IsDecision system.now options.now (theory.Exists number f) result }
{
    let classed = ClassedTable::new(alloc, table)?;
    let column = column_of(columns, number);
    let projection = Project::new(alloc, &classed, classed.list(), column)?;
    let keys = ProjectionKeys::new(&classed, column);
    explored_by_keys(alloc, system, &Projecting(&projection), &keys, options)
}

/// The same, by classes where they save most entries.
fn project_table(
    alloc: Global,
    system: &System,
    number: u32,
    columns: &[u32],
    table: &Dta,
    options: &Options,
) -> Result<Decided, ExploreFault>
    requires body { (f : theory.Core) × IsBody system.now options.now number f columns.now
        (OfTable (listed_table table.now)) }
    requires others { 1 < table.now.columns }
    ensures { (f : theory.Core) → IsBody system.now options.now number f columns.now
        (OfTable (listed_table table.now))
        → IsDecision system.now options.now (theory.Exists number f) result }
{
    if is_branching(system.signature()) {
        project_by_classes(alloc, system, number, columns, table, options)
    } else {
        project_by_entries(alloc, system, number, columns, table, options)
    }
}

/// Decides "for some value of this variable" of a formula.
pub(crate) fn project(
    alloc: Global,
    system: &System,
    number: u32,
    body: &Answered<'_>,
    options: &Options,
) -> Result<Decided, ExploreFault>
    requires { (f : theory.Core) × IsBody system.now options.now number f body.now.columns.now
        (as_answer body.now.answer.now) }
    ensures { (f : theory.Core) → IsBody system.now options.now number f body.now.columns.now
        (as_answer body.now.answer.now)
        → IsDecision system.now options.now (theory.Exists number f) result }
{
    match body.answer {
        Last::Truth(_) => unreachable!(),
        Last::Auto(table) => {
            if table.columns() == 1 {
                Ok(Decided::truth(accepts_some(table)))
            } else {
                project_table(alloc, system, number, body.columns, table, options)
            }
        }
    }
}
