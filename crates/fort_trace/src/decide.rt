//! Decides a formula, each of its parts in turn, and records the steps.
ghost use Rattle.std.specs.Prelude.{ℕ, ◌<◌, length, map, IfOk, IfErr, OnOk};
ghost use Rattle.fort_theory.specs.Parts as logic;
ghost use Rattle.fort_theory.specs.PatternStructures.{pattern_structure};
ghost use Rattle.fort_formulas.specs.CoreView.{as_core};
ghost use Rattle.fort_parts.specs.DecidedCores.{IsDecided};
ghost use Rattle.fort_parts.specs.PartColumns.{columns_of};
ghost use Rattle.fort_parts.specs.PartAnswers.{OfValue, OfTable, IsAnswerTo};
ghost use Rattle.fort_tables.specs.Tables.{listed_table};
ghost use Rattle.fort_certificate_theory.specs.Written.{IsWritten};
ghost use Rattle.fort_certificate_theory.specs.OpenWritten.{AreWrittenFor};
ghost use Rattle.fort_engine.specs.AnswerView.{as_answer, IfOver, KeepsCapAt, IsLimit};
ghost use Rattle.fort_steps.specs.StepView.{as_step};
ghost use Rattle.fort_trace.specs.Recording.{IsTraced};
ghost use Rattle.fort_trace.specs.RecordedView.{as_certificate};

use crate::closures::push_closures;
use crate::recorder::RecordedSteps;
use fort_engine::{Closures, EngineFault, Last, Options, decide_parts};
use fort_formulas::Core;
use fort_lockstep::Dta;
use fort_outline::Outline;
use fort_steps::Step;
use fort_terms::{System, has_numbers};
use std::alloc::Global;

/// The answer to a formula, with the steps that make it.
#[derive(Drop)]
struct Traced {
    last: Last,
    steps: Vec<Step>,
}

/// A closed formula's truth, with the steps of a certificate of it.
#[derive(Drop)]
pub struct Recorded {
    pub verdict: bool,
    pub steps: Vec<Step>,
}

/// The table of a formula with free variables, with the steps that make it.
#[derive(Drop)]
pub struct OpenRecorded {
    pub table: Dta,
    pub steps: Vec<Step>,
}

/// Decides a core formula, with the steps of each of its parts. More parts than there are numbers of 32 bits are want of memory.
fn decide_traced(
    alloc: Global,
    system: &System,
    core: &Core,
    cap: u32,
    reduces: bool,
) -> Result<Traced, EngineFault>
    requires { IsDecided system.now (as_core core.now) }
    ensures truth { IfOk result (λ r. IsAnswerTo (pattern_structure system.now)
        (as_core core.now) (as_answer r.last)) }
    ensures steps { IfOk result (λ r. IsTraced reduces system.now (as_core core.now) r.last
        r.steps.items) }
    ensures within { OnOk result (KeepsCapAt system.now reduces (as_core core.now) cap) }
    ensures over { IfErr result (λ e. IfOver e
        (IsLimit system.now reduces (as_core core.now) cap)) }
{
    let outline = Outline::new(alloc, core)?;
    if !has_numbers(outline.roots.len()) {
        return Err(EngineFault::Memory);
    }
    let closures = Closures::new(alloc, system, &outline.roots)?;
    let mut list = Vec::new(alloc);
    push_closures(alloc, system, &closures, &mut list)?;
    let mut recorder = RecordedSteps { list };
    let options = Options {
        cap,
        reduces,
        lists: true,
    };
    let mut kept = match decide_parts(alloc, system, &outline, &closures, &options, &mut recorder) {
        Ok(kept) => kept,
        Err(fault) => return Err(fault),
    };
    let steps = recorder.list;
    match kept.swap_remove(outline.whole) {
        Some(last) => Ok(Traced { last, steps }),
        None => unreachable!(),
    }
}

/// Decides a closed core formula over a system, with the steps of the certificate that is written for it, with reduced tables or with
/// tables as they are. It is over the cap where some part has more labels than the cap; the first such part is told. More parts than
/// there are numbers of 32 bits are want of memory.
pub fn decide_with_steps(
    alloc: Global,
    system: &System,
    core: &Core,
    cap: u32,
    reduces: bool,
) -> Result<Recorded, EngineFault>
    requires decided { IsDecided system.now (as_core core.now) }
    requires closed { logic.IsClosed (as_core core.now) }
    ensures truth { IfOk result (λ r. IsAnswerTo (pattern_structure system.now)
        (as_core core.now) (OfValue r.verdict)) }
    ensures written { IfOk result (λ r. (first : ℕ)
        → IsWritten reduces system.now (as_core core.now) (as_certificate first r)) }
    ensures within { OnOk result (KeepsCapAt system.now reduces (as_core core.now) cap) }
    ensures over { IfErr result (λ e. IfOver e
        (IsLimit system.now reduces (as_core core.now) cap)) }
{
    let Traced { last, steps } = match decide_traced(alloc, system, core, cap, reduces) {
        Ok(traced) => traced,
        Err(fault) => return Err(fault),
    };
    match last {
        Last::Truth(verdict) => Ok(Recorded { verdict, steps }),
        Last::Auto(_) => unreachable!(),
    }
}

/// The table of a core formula with free variables, with the steps of the certificate that is written for it; the cap is as in
/// `decide_with_steps`.
pub fn table_with_steps(
    alloc: Global,
    system: &System,
    core: &Core,
    cap: u32,
    reduces: bool,
) -> Result<OpenRecorded, EngineFault>
    requires decided { IsDecided system.now (as_core core.now) }
    requires columns { 0 < length (columns_of (as_core core.now)) }
    ensures truth { IfOk result (λ r. IsAnswerTo (pattern_structure system.now)
        (as_core core.now) (OfTable (listed_table r.table))) }
    ensures written { IfOk result (λ r. AreWrittenFor reduces system.now (as_core core.now)
        (map as_step r.steps.items) (listed_table r.table)) }
    ensures within { OnOk result (KeepsCapAt system.now reduces (as_core core.now) cap) }
    ensures over { IfErr result (λ e. IfOver e
        (IsLimit system.now reduces (as_core core.now) cap)) }
{
    let Traced { last, steps } = match decide_traced(alloc, system, core, cap, reduces) {
        Ok(traced) => traced,
        Err(fault) => return Err(fault),
    };
    match last {
        Last::Auto(table) => Ok(OpenRecorded { table, steps }),
        Last::Truth(_) => unreachable!(),
    }
}
