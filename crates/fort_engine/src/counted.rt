//! "Infinitely many" of answers.
ghost use Rattle.std.specs.Prelude.{◌≡◌, ◌<◌, ℕ, map};
ghost use Rattle.fort_theory.specs.Cores as theory;
ghost use Rattle.fort_tables.specs.Tables.{listed_table};
ghost use Rattle.fort_findings.specs.FindingView.{as_count};
ghost use Rattle.fort_parts.specs.PartAnswers.{OfTable};
ghost use Rattle.fort_engine.specs.AnswerView.{as_answer};
ghost use Rattle.fort_engine.specs.Deciding.{IsBody, IsDecision};
ghost use Rattle.fort_engine.specs.Found.{counted_with, IsCounted, IsDecidedBy, IsMany, IsManyOf};

use crate::answer::{Decided, Last};
use crate::by_keys::{explored_by_keys, is_branching};
use crate::explored::explored;
use crate::operands::Answered;
use crate::options::Options;
use fort_classed_tables::ClassedTable;
use fort_explore::ExploreFault;
use fort_findings::Count;
use fort_infinity::local::many_value;
use fort_infinity::{Many, pure_counts};
use fort_labels::ByRule;
use fort_lockstep::Dta;
use fort_outline::column_of;
use fort_projection_keys::ManyKeys;
use fort_projections::pure_states;
use fort_table::Table;
use fort_terms::System;
use std::alloc::Global;

/// A decision with the counts by which it was found.
fn with_counts(
    decided: Result<Decided, ExploreFault>,
    counts: Vec<Count>,
) -> Result<Decided, ExploreFault>
    ensures { result ≡ counted_with counts decided }
{
    match decided {
        Ok(decided) => {
            let Decided {
                answer,
                counts: _none,
                targets,
                classes,
            } = decided;
            Ok(Decided {
                answer,
                counts: Some(counts),
                targets,
                classes,
            })
        }
        Err(fault) => Err(fault),
    }
}

/// Decides "for infinitely many values of a variable" of a formula with other columns and this table, by the counts of the states that
/// have the variable alone.
fn many_by_entries(
    alloc: Global,
    system: &System,
    table: &Dta,
    column: usize,
    alone: &[u32],
    counts: &[Count],
    options: &Options,
) -> Result<Decided, ExploreFault>
    requires counted { (n : ℕ) × (f : theory.Core) × IsCounted system.now options.now n f
        (listed_table table.now) column alone.now (map as_count counts.now) }
    requires others { 1 < table.now.columns }
    ensures { (n : ℕ) (f : theory.Core) → IsCounted system.now options.now n f
        (listed_table table.now) column alone.now (map as_count counts.now)
        → IsDecision system.now options.now (theory.Infinite n f) result }
{
    let many = Many::new(table, column, alone, counts);
    explored(alloc, system, &ByRule(&many), options)
}

/// The same by the classes of the table's states.
fn many_by_classes<'b>(
    alloc: Global,
    system: &System,
    table: &Dta,
    column: usize,
    alone: &'b [u32],
    counts: &'b [Count],
    options: &Options,
) -> Result<Decided, ExploreFault>
    requires counted { (n : ℕ) × (f : theory.Core) × IsCounted system.now options.now n f
        (listed_table table.now) column alone.now (map as_count counts.now) }
    requires others { 1 < table.now.columns }
    ensures { (n : ℕ) (f : theory.Core) → IsCounted system.now options.now n f
        (listed_table table.now) column alone.now (map as_count counts.now)
        → IsDecision system.now options.now (theory.Infinite n f) result }
{
    let classed = ClassedTable::new(alloc, table)?;
    let many = Many::new(&classed, column, alone, counts);
    let keys = ManyKeys::new(&classed, column);
    explored_by_keys(alloc, system, &ByRule(&many), &keys, options)
}

/// The same of a formula that may have no other column, by classes where they save most entries.
fn by_counts(
    alloc: Global,
    system: &System,
    table: &Dta,
    column: usize,
    alone: &[u32],
    counts: &[Count],
    options: &Options,
) -> Result<Decided, ExploreFault>
    requires { (n : ℕ) × (f : theory.Core) × IsCounted system.now options.now n f
        (listed_table table.now) column alone.now (map as_count counts.now) }
    ensures { (n : ℕ) (f : theory.Core) → IsCounted system.now options.now n f
        (listed_table table.now) column alone.now (map as_count counts.now)
        → IsDecision system.now options.now (theory.Infinite n f) result }
{
    if table.columns() == 1 {
        return Ok(Decided::truth(many_value(table, column, alone, counts)));
    }
    if is_branching(system.signature()) {
        many_by_classes(alloc, system, table, column, alone, counts, options)
    } else {
        many_by_entries(alloc, system, table, column, alone, counts, options)
    }
}

/// Decides "for infinitely many values of this variable" of a formula with this table.
fn count_table(
    alloc: Global,
    system: &System,
    number: u32,
    columns: &[u32],
    table: &Dta,
    options: &Options,
) -> Result<Decided, ExploreFault>
    requires { (f : theory.Core) × IsBody system.now options.now number f columns.now
        (OfTable (listed_table table.now)) }
    ensures { (f : theory.Core) → IsBody system.now options.now number f columns.now
        (OfTable (listed_table table.now))
        → IsDecidedBy system.now options.now (theory.Infinite number f)
        (IsMany system.now options.now number f table.now) result }
{
    let column = column_of(columns, number);
    let alone = pure_states(alloc, table, column)?;
    let counts = pure_counts(alloc, table, column, &alone)?;
    let decided = by_counts(alloc, system, table, column, &alone, &counts, options);
    with_counts(decided, counts)
}

/// Decides "for infinitely many values of this variable" of a formula.
pub(crate) fn count(
    alloc: Global,
    system: &System,
    number: u32,
    body: &Answered<'_>,
    options: &Options,
) -> Result<Decided, ExploreFault>
    requires { (f : theory.Core) × IsBody system.now options.now number f body.now.columns.now
        (as_answer body.now.answer.now) }
    ensures { (f : theory.Core) → IsBody system.now options.now number f body.now.columns.now
        (as_answer body.now.answer.now)
        → IsDecidedBy system.now options.now (theory.Infinite number f)
        (IsManyOf system.now options.now number f body.now.answer.now) result }
{
    match body.answer {
        Last::Truth(_) => unreachable!(),
        Last::Auto(table) => count_table(alloc, system, number, body.columns, table, options),
    }
}
