//! The steps of a certificate are recorded part by part.
use crate::answers::push_answer;
use crate::counts::push_counts;
use fort_engine::{Decided, Last, Options, Recorder};
use fort_outline::Outline;
use fort_steps::Step;
use fort_terms::System;
use std::alloc::{AllocError, Global};

/// The steps so far.
#[derive(Drop)]
pub(crate) struct RecordedSteps {
    pub(crate) list: Vec<Step>,
}

impl Recorder for RecordedSteps {
    ghost use Rattle.std.specs.Prelude.{◌≡◌};
    ghost use Rattle.fort_trace.specs.Recording.{recorded_with, AreRecordedTo, AreRecordedTo-less};

    ghost recorded = { λ s system options o k kept.
        AreRecordedTo options.reduces system o k kept s.list.items };

    ghost takes = { λ options. options ≡ recorded_with options.cap options.reduces };

    ghost lets_go = { λ s system options o k kept less h same.
        AreRecordedTo-less options.reduces system o k kept less s.list.items h same };

    fn note(
        &mut self,
        _alloc: Global,
        system: &System,
        _options: &Options,
        outline: &Outline,
        k: usize,
        _kept: &[Option<Last>],
        decided: Decided,
    ) -> Result<Last, AllocError> {
        // A system keeps to the law of systems.
        let _lawful = system.signature();
        let number = k as u32;
        let Decided {
            answer,
            counts,
            targets,
            classes,
        } = decided;
        let root = &outline.roots[k];
        push_counts(number, counts, &mut self.list)?;
        push_answer(number, root, &answer, targets, classes, &mut self.list)?;
        Ok(answer)
    }
}
