//! What a certificate proves.
ghost use Rattle.std.specs.Prelude.{IfOk};
ghost use Rattle.fort_theory.specs.Parts.{IsClosed};
ghost use Rattle.fort_theory.specs.PatternStructures.{pattern_structure};
ghost use Rattle.fort_formulas.specs.CoreView.{as_core};
ghost use Rattle.fort_certificate_theory.specs.Checked.{HasOutcome};
ghost use Rattle.fort_parts.specs.DecidedCores.{IsDecided};
ghost use Rattle.fort_parts.specs.PartAnswers.{OfValue, IsAnswerTo};
ghost use Rattle.fort_steps.specs.CertificateView.{as_certificate};
ghost use Rattle.fort_cert_checker.specs.OutcomeView.{as_outcome};

use fort_cert_checker::{Checker, Rejected};
use fort_formulas::Core;
use fort_steps::Certificate;
use fort_terms::System;
use std::alloc::{AllocError, Global};

/// The verdict of a certificate of a closed core formula, or the first form that fails.
pub fn verdict(
    alloc: Global,
    system: &System,
    core: &Core,
    certificate: &Certificate,
) -> Result<Result<bool, Rejected>, AllocError>
    requires decided { IsDecided system.now (as_core core.now) }
    requires closed { IsClosed (as_core core.now) }
    ensures outcome { IfOk result (λ r. HasOutcome system.now (as_core core.now)
        (as_certificate certificate.now) (as_outcome r)) }
    ensures truth { IfOk result (λ r. IfOk r (λ b. IsAnswerTo (pattern_structure system.now)
        (as_core core.now) (OfValue b))) }
{
    let mut checker = Checker::new(alloc, system, core, certificate)?;
    Ok(checker.check())
}
