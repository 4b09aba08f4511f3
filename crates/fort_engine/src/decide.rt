//! Decides a formula, each of its parts in turn.
ghost use Rattle.std.specs.Prelude.{◌≡◌, ℕ, ◌<◌, ◌≤◌, [], length, slice_index_or, false, true, None, IfOk, IfErr, OnOk};
ghost use Rattle.fort_theory.specs.Cores as theory;
ghost use Rattle.fort_theory.specs.PatternStructures.{pattern_structure};
ghost use Rattle.fort_formulas.specs.CoreView.{as_core};
ghost use Rattle.fort_parts.specs.DecidedCores.{IsDecided};
ghost use Rattle.fort_parts.specs.PartAnswers.{IsAnswerTo};
ghost use Rattle.fort_outline.specs.Roots.{HasOperandsBelow};
ghost use Rattle.fort_outline.specs.Outlines.{parts_in};
ghost use Rattle.fort_engine.specs.AnswerView.{as_answer, HasStatesWithin, IfOver, KeepsCapAt, IsLimit};
ghost use Rattle.fort_engine.specs.Kept.{IsSoFar};
ghost use Rattle.fort_engine.specs.Closures.{AreClosures};
ghost use Rattle.fort_engine.specs.Deciding.{IsPlanned};

use crate::answer::{EngineFault, Last, Limit, Trace};
use crate::closures::Closures;
use crate::options::Options;
use crate::part::decide_part;
use crate::recorder::Recorder;
use fort_explore::ExploreFault;
use fort_formulas::Core;
use fort_outline::{Outline, Root};
use fort_terms::System;
use std::alloc::Global;

/// Lets go of the answer to part `j`, where no part after part `k` needs it.
fn let_go(kept: &mut Vec<Option<Last>>, uses: &[usize], j: usize, k: usize)
    requires within { j < length kept.old.items }
    requires used { j < length uses.now }
    ensures count { length kept.new.items ≡ length kept.old.items }
    ensures needed { (i : ℕ) → i < length kept.old.items → k < slice_index_or uses.now i 0
        → slice_index_or kept.new.items i None ≡ slice_index_or kept.old.items i None }
{
    if uses[j] <= k {
        kept[j] = None;
    }
}

/// Lets go of the answers to the operands of part `k` that no later part needs.
fn drop_idle(kept: &mut Vec<Option<Last>>, outline: &Outline, k: usize)
    requires within { k < length outline.now.roots.items }
    requires operands { HasOperandsBelow (length kept.old.items)
        (slice_index_or outline.now.roots.items k Root.True) }
    requires uses { length kept.old.items ≤ length outline.now.last_uses.items }
    ensures count { length kept.new.items ≡ length kept.old.items }
    ensures needed { (j : ℕ) → j < length kept.old.items
        → k < slice_index_or outline.now.last_uses.items j 0
        → slice_index_or kept.new.items j None ≡ slice_index_or kept.old.items j None }
{
    let uses = outline.last_uses.as_slice();
    match &outline.roots[k] {
        Root::True | Root::Leaf(_) => {}
        Root::Not(f) | Root::Exists(_, f) | Root::Infinite(_, f) => let_go(kept, uses, *f, k),
        Root::Binary(_, f, g) => {
            let_go(kept, uses, *f, k);
            let_go(kept, uses, *g, k);
        }
    }
}

/// Decides the parts one after another, by the closures that they ask for, and has them recorded; the answers that are needed at the end are kept.
pub fn decide_parts<R: Recorder>(
    alloc: Global,
    system: &System,
    outline: &Outline,
    closures: &Closures,
    options: &Options,
    recorder: &mut R,
) -> Result<Vec<Option<Last>>, EngineFault>
    requires planned { (root : theory.Core) × IsPlanned system.now root outline.now }
    requires closures { AreClosures system.now (parts_in outline.now) closures.now.list.items }
    requires taken { R.takes options.now }
    requires begun { R.recorded recorder.old system.now options.now outline.now 0 [] }
    ensures far { IfOk result (λ kept. IsSoFar system.now options.now (parts_in outline.now)
        outline.now.last_uses.items (length outline.now.roots.items) kept.items) }
    ensures recorded { IfOk result (λ kept. R.recorded recorder.new system.now options.now
        outline.now (length outline.now.roots.items) kept.items) }
    ensures over { IfErr result (λ e. (root : theory.Core)
        → IsPlanned system.now root outline.now
        → IfOver e (IsLimit system.now options.now.reduces root options.now.cap)) }
{
    let mut kept: Vec<Option<Last>> = Vec::new(alloc);
    for k in 0..outline.roots.len() {
        let answers = kept.as_slice();
        let decided = match decide_part(alloc, system, outline, closures, k, answers, options) {
            Ok(decided) => decided,
            Err(ExploreFault::Memory) => return Err(EngineFault::Memory),
            Err(ExploreFault::Over(tuples)) => {
                return Err(EngineFault::Over(Limit {
                    part: k,
                    kind: outline.roots[k].kind(),
                    tuples,
                }));
            }
        };
        let answer = recorder.note(alloc, system, options, outline, k, answers, decided)?;
        kept.push(Some(answer))?;
        drop_idle(&mut kept, outline, k);
    }
    Ok(kept)
}

/// `decide_with`, by the outline of the core formula, which serves each system over which the formula can be decided.
pub fn decide_outlined(
    alloc: Global,
    system: &System,
    outline: &Outline,
    options: &Options,
) -> Result<Trace, EngineFault>
    requires { (root : theory.Core) × IsPlanned system.now root outline.now }
    ensures truth { IfOk result (λ t. (root : theory.Core) → IsPlanned system.now root outline.now
        → IsAnswerTo (pattern_structure system.now) root (as_answer t.last)) }
    ensures within { OnOk result ((root : theory.Core) → IsPlanned system.now root outline.now
        → KeepsCapAt system.now options.now.reduces root options.now.cap) }
    ensures states { IfOk result (λ t. HasStatesWithin options.now.cap t.last) }
    ensures over { IfErr result (λ e. (root : theory.Core)
        → IsPlanned system.now root outline.now
        → IfOver e (IsLimit system.now options.now.reduces root options.now.cap)) }
{
    let closures = Closures::new(alloc, system, &outline.roots)?;
    let mut kept = match decide_parts(alloc, system, outline, &closures, options, &mut ()) {
        Ok(kept) => kept,
        Err(fault) => return Err(fault),
    };
    match kept.swap_remove(outline.whole) {
        Some(last) => Ok(Trace { last }),
        None => unreachable!(),
    }
}

/// Decides a core formula over a system: its truth where it is closed, else a table that accepts exactly the tuples that meet it.
/// It is over the cap where some part has more labels than the cap, by its operands' tables as they are kept; the first such part
/// is told.
pub fn decide_with(
    alloc: Global,
    system: &System,
    core: &Core,
    options: &Options,
) -> Result<Trace, EngineFault>
    requires { IsDecided system.now (as_core core.now) }
    ensures truth { IfOk result (λ t. IsAnswerTo (pattern_structure system.now)
        (as_core core.now) (as_answer t.last)) }
    ensures within { OnOk result (KeepsCapAt system.now options.now.reduces (as_core core.now)
        options.now.cap) }
    ensures states { IfOk result (λ t. HasStatesWithin options.now.cap t.last) }
    ensures over { IfErr result (λ e. IfOver e
        (IsLimit system.now options.now.reduces (as_core core.now) options.now.cap)) }
{
    let outline = Outline::new(alloc, core)?;
    decide_outlined(alloc, system, &outline, options)
}

/// `decide_with`, with tables as they are.
/// Promised to callers: the program itself doesn't call it.
pub fn decide_core(
    alloc: Global,
    system: &System,
    core: &Core,
    cap: u32,
) -> Result<Trace, EngineFault>
    requires { IsDecided system.now (as_core core.now) }
    ensures truth { IfOk result (λ t. IsAnswerTo (pattern_structure system.now)
        (as_core core.now) (as_answer t.last)) }
    ensures within { OnOk result (KeepsCapAt system.now false (as_core core.now) cap) }
    ensures over { IfErr result (λ e. IfOver e
        (IsLimit system.now false (as_core core.now) cap)) }
{
    decide_with(alloc, system, core, &Options::with(cap, false))
}

/// `decide_with`, with reduced tables.
pub fn decide_reduced(
    alloc: Global,
    system: &System,
    core: &Core,
    cap: u32,
) -> Result<Trace, EngineFault>
    requires { IsDecided system.now (as_core core.now) }
    ensures truth { IfOk result (λ t. IsAnswerTo (pattern_structure system.now)
        (as_core core.now) (as_answer t.last)) }
    ensures within { OnOk result (KeepsCapAt system.now true (as_core core.now) cap) }
    ensures over { IfErr result (λ e. IfOver e
        (IsLimit system.now true (as_core core.now) cap)) }
{
    decide_with(alloc, system, core, &Options::with(cap, true))
}
