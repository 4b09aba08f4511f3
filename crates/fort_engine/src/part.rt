//! Decides one part from the answers to its operands.
ghost use Rattle.std.specs.Prelude.{◌≡◌, None, IfOk};
ghost use Rattle.fort_theory.specs.Patterns.{PatternSystem};
ghost use Rattle.fort_theory.specs.Cores as theory;
ghost use Rattle.fort_connectives.specs.ConnectiveView.{connective_of};
ghost use Rattle.fort_outline.specs.Outlines.{parts_in, core_at};
ghost use Rattle.fort_engine.specs.declared.options.Options as asked;
ghost use Rattle.fort_engine.specs.AnswerView.{as_answer};
ghost use Rattle.fort_engine.specs.Closures.{AreClosures};
ghost use Rattle.fort_engine.specs.Kept.{IsRight, IsKeptOverCap};
ghost use Rattle.fort_engine.specs.Deciding.{IsNextPart, IsOfTwo, IsDecision};
ghost use Rattle.fort_engine.specs.Found.{IsTurnedOf, IsDecidedBy, IsFound};

use crate::answer::{Decided, Last};
use crate::atoms::decide_leaf;
use crate::closures::Closures;
use crate::counted::count;
use crate::joined::join;
use crate::operands::{kept_answer, kept_operand};
use crate::options::Options;
use crate::projected::project;
use fort_connectives::Op;
use fort_explore::ExploreFault;
use fort_outline::{Outline, Root};
use fort_rrn_algebra::negate;
use fort_terms::System;
use std::alloc::Global;

/// Decides the negation of a formula with this answer. No targets and no classes are listed, since its table has its body's.
fn complement(alloc: Global, body: &Last) -> Result<Decided, ExploreFault>
    ensures decided { (system : PatternSystem) (options : asked.Options) (f : theory.Core)
        → IsRight system options f (as_answer body.now)
        → (IsKeptOverCap system options f → ⊥)
        → IsDecidedBy system options (theory.Not f)
        (λ d. IsRight system options (theory.Not f) (as_answer d.answer)) result }
    ensures turned { IfOk result (λ d. IsTurnedOf body.now d.answer) }
    ensures plain { IfOk result (λ d. d.counts ≡ None) }
{
    match body {
        Last::Truth(truth) => Ok(Decided::truth(!*truth)),
        Last::Auto(table) => Ok(Decided {
            answer: Last::Auto(negate(alloc, table)?),
            counts: None,
            targets: None,
            classes: None,
        }),
    }
}

/// Decides part k, which is parts f and g joined.
fn join_parts(
    alloc: Global,
    system: &System,
    outline: &Outline,
    k: usize,
    op: Op,
    f: usize,
    g: usize,
    kept: &[Option<Last>],
    options: &Options,
) -> Result<Decided, ExploreFault>
    requires next { IsNextPart system.now options.now outline.now k kept.now }
    requires two { IsOfTwo (connective_of op) (parts_in outline.now) k f g }
    ensures { IsDecision system.now options.now (core_at outline.now k) result }
{
    let first = kept_operand(outline, kept, f);
    let second = kept_operand(outline, kept, g);
    let columns = outline.columns[k].as_slice();
    join(alloc, system, op, columns, &first, &second, options)
}

/// Decides part k from the answers to the parts before it.
pub(crate) fn decide_part(
    alloc: Global,
    system: &System,
    outline: &Outline,
    closures: &Closures,
    k: usize,
    kept: &[Option<Last>],
    options: &Options,
) -> Result<Decided, ExploreFault>
    requires next { IsNextPart system.now options.now outline.now k kept.now }
    requires closures { AreClosures system.now (parts_in outline.now) closures.now.list.items }
    ensures { IsDecidedBy system.now options.now (core_at outline.now k)
        (IsFound system.now options.now (parts_in outline.now) kept.now (core_at outline.now k))
        result }
{
    match &outline.roots[k] {
        Root::True => Ok(Decided::truth(true)),
        Root::Leaf(leaf) => decide_leaf(alloc, system, leaf, closures, options),
        Root::Not(f) => complement(alloc, kept_answer(kept, *f)),
        Root::Binary(op, f, g) => join_parts(alloc, system, outline, k, *op, *f, *g, kept, options),
        Root::Exists(n, f) => {
            let body = kept_operand(outline, kept, *f);
            project(alloc, system, *n, &body, options)
        }
        Root::Infinite(n, f) => {
            let body = kept_operand(outline, kept, *f);
            count(alloc, system, *n, &body, options)
        }
    }
}
