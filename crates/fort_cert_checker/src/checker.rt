//! The check of a certificate.
ghost use Rattle.std.specs.Prelude.{◌≡◌, Bool, map, Some, Err, IfOk, OnOk, IfErr};
ghost use Rattle.fort_theory.specs.Patterns.{PatternSystem};
ghost use Rattle.fort_theory.specs.Cores as theory;
ghost use Rattle.fort_theory.specs.Parts as logic;
ghost use Rattle.fort_theory.specs.PatternStructures.{pattern_structure};
ghost use Rattle.fort_certificate_theory.specs.Certificates as certificates;
ghost use Rattle.fort_formulas.specs.CoreView.{as_core};
ghost use Rattle.fort_parts.specs.DecidedCores.{IsDecided};
ghost use Rattle.fort_parts.specs.PartAnswers.{OfValue, IsAnswerTo};
ghost use Rattle.fort_certificate_theory.specs.Outcomes.{Verdict};
ghost use Rattle.fort_certificate_theory.specs.Checked as outcomes;
ghost use Rattle.fort_certificate_theory.specs.Checked.{HasOutcome, last_value};
ghost use Rattle.fort_steps.specs.CertificateView.{as_certificate};
ghost use Rattle.fort_steps.specs.StepView.{as_step};
ghost use Rattle.fort_cert_checker.specs.OutcomeView.{as_outcome};
ghost use Rattle.fort_cert_checker.specs.Checkers.{IsCheckerOf};

use crate::about::value_in;
use crate::rejected::Rejected;
use crate::step_checker::StepChecker;
use fort_check_steps::Reason;
use fort_formulas::Core;
use fort_steps::Certificate;
use fort_terms::System;
use std::alloc::{AllocError, Global};

/// Checks a certificate of a closed formula, in room that is taken before.
#[derive(Drop)]
pub struct Checker<'a> {
    steps: StepChecker<'a>,
    certificate: &'a Certificate,
}

/// What comes of a certificate whose steps are all fine.
fn verdict_of(certificate: &Certificate) -> Result<bool, Rejected>
    requires { (value : Bool)
        × (last_value (map as_step certificate.now.steps.items) ≡ Some value) }
    ensures verdict { OnOk result (last_value (map as_step certificate.now.steps.items)
        ≡ Some certificate.now.verdict) }
    ensures same { IfOk result (λ verdict. verdict ≡ certificate.now.verdict) }
    ensures other { IfErr result (λ r. (value : Bool)
        → last_value (map as_step certificate.now.steps.items) ≡ Some value
        → certificate.now.verdict ≡ value → ⊥) }
    ensures header { IfErr result (λ r. as_outcome (Err r)
        ≡ outcomes.Rejected certificate.now.first 0 Verdict) }
{
    match certificate.steps.last() {
        Some(step) if value_in(step) == certificate.verdict => Ok(certificate.verdict),
        Some(_) => Err(Rejected {
            form: certificate.first,
            place: 0,
            reason: Reason::Verdict,
        }),
        None => unreachable!(),
    }
}

impl<'a> Checker<'a> {
    /// Takes all the memory that the check needs. More parts, steps, or targets or classes of a part than there are numbers of 32 bits
    /// are want of memory.
    pub fn new(
        alloc: Global,
        system: &'a System,
        core: &'a Core,
        certificate: &'a Certificate,
    ) -> Result<Checker<'a>, AllocError>
        requires decided { IsDecided system.now (as_core core.now) }
        requires closed { logic.IsClosed (as_core core.now) }
        ensures { IfOk result (IsCheckerOf system.now (as_core core.now)
            (as_certificate certificate.now)) }
    {
        let listed = certificate.steps.as_slice();
        let steps = StepChecker::new(alloc, system, core, certificate.first, listed)?;
        Ok(Checker { steps, certificate })
    }

    /// Checks the certificate: its verdict, which is the formula's truth, or the first form that fails. It takes no memory, and
    /// answers the same when it is called again.
    pub fn check(&mut self) -> Result<bool, Rejected>
        requires { (system : PatternSystem) × (f : theory.Core) × (c : certificates.Certificate)
            × IsCheckerOf system f c self.old }
        ensures outcome { (system : PatternSystem) (f : theory.Core)
            (c : certificates.Certificate) → IsCheckerOf system f c self.old
            → HasOutcome system f c (as_outcome result) }
        ensures truth { IfOk result (λ verdict. (system : PatternSystem) (f : theory.Core)
            (c : certificates.Certificate) → IsCheckerOf system f c self.old
            → IsAnswerTo (pattern_structure system) f (OfValue verdict)) }
        ensures again { (system : PatternSystem) (f : theory.Core)
            (c : certificates.Certificate) → IsCheckerOf system f c self.old
            → IsCheckerOf system f c self.new }
    {
        self.steps.check()?;
        verdict_of(self.certificate)
    }
}
