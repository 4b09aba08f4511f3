//! What is recorded while a formula is decided.
ghost use Rattle.std.specs.Prelude.{◌≡◌, ℕ, ◌+◌, ◌<◌, ◌≤◌, List, [], ◌∷◌, ◌++◌, slice_index_or, Option, None, Some, IfOk, OnOk};
ghost use Rattle.fort_theory.specs.Patterns.{PatternSystem};
ghost use Rattle.fort_outline.specs.declared.outline.Outline as outlines;
ghost use Rattle.fort_outline.specs.Outlines.{parts_in, core_at};
ghost use Rattle.fort_engine.specs.declared.answer.Last as answers;
ghost use Rattle.fort_engine.specs.declared.options.Options as asked;
ghost use Rattle.fort_engine.specs.Deciding.{IsNextPart};
ghost use Rattle.fort_engine.specs.Found.{IsFound};

use crate::answer::{Decided, Last};
use crate::options::Options;
use fort_outline::Outline;
use fort_terms::System;
use std::alloc::{AllocError, Global};

/// Is told of each part of a formula once it is decided.
pub trait Recorder {
    /// The first k parts of an outline are recorded, as they are decided with some options; the answers to them are kept as far as they
    /// are needed from part k on.
    ghost recorded: { Self → PatternSystem → asked.Options → outlines.Outline → ℕ
        → List (Option answers.Last) → Type 0 };

    /// The options with which it can be told of parts.
    ghost takes: { asked.Options → Type 0 };

    /// Records part k, which was decided from the answers that are kept, and hands on its answer.
    fn note(
        &mut self,
        alloc: Global,
        system: &System,
        options: &Options,
        outline: &Outline,
        k: usize,
        kept: &[Option<Last>],
        decided: Decided,
    ) -> Result<Last, AllocError>
        requires taken { takes options.now }
        requires next { IsNextPart system.now options.now outline.now k kept.now }
        requires found { IsFound system.now options.now (parts_in outline.now) kept.now
            (core_at outline.now k) decided }
        requires before { recorded self.old system.now options.now outline.now k kept.now }
        ensures recorded { OnOk result (recorded self.new system.now options.now outline.now
            (k + 1) (kept.now ++ Some decided.answer ∷ [])) }
        ensures answer { IfOk result (λ a. a ≡ decided.answer) };

    /// Answers that are not needed may be let go.
    ghost lets_go: { (s : Self) (system : PatternSystem) (options : asked.Options)
        (o : outlines.Outline) (k : ℕ) (kept less : List (Option answers.Last))
        → recorded s system options o k kept
        → ((j : ℕ) → j < k → k ≤ slice_index_or o.last_uses.items j 0
        → slice_index_or less j None ≡ slice_index_or kept j None)
        → recorded s system options o k less };
}

/// Records nothing.
impl Recorder for () {
    ghost recorded = { λ _ _ _ _ _ _. Unit {0} };

    ghost takes = { λ _. Unit {0} };

    ghost lets_go = { λ _ _ _ _ _ _ _ _ _. tt };

    fn note(
        &mut self,
        _alloc: Global,
        _system: &System,
        _options: &Options,
        _outline: &Outline,
        _k: usize,
        _kept: &[Option<Last>],
        decided: Decided,
    ) -> Result<Last, AllocError> {
        Ok(decided.answer)
    }
}
