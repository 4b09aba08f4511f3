//! The check of a certificate of an open formula.
ghost use Rattle.std.specs.Prelude.{◌≡◌, ◌↔◌, ℕ, ◌+◌, ◌<◌, ◌^◌, length, IfOk, IsTrue};
ghost use Rattle.fort_theory.specs.Patterns.{PatternSystem};
ghost use Rattle.fort_theory.specs.Cores as theory;
ghost use Rattle.fort_formulas.specs.CoreView.{as_core};
ghost use Rattle.fort_parts.specs.PartColumns.{columns_of};
ghost use Rattle.fort_parts.specs.DecidedCores.{IsDecided};
ghost use Rattle.fort_certificate_theory.specs.Made.{MadeSoFar};
ghost use Rattle.fort_certificate_theory.specs.OpenCertificates as definitions;
ghost use Rattle.fort_certificate_theory.specs.OpenChecked.{HasOpenOutcome};
ghost use Rattle.fort_certificate_theory.specs.OpenTruth.{Proves};
ghost use Rattle.fort_steps.specs.OpenView.{as_open, as_claim};
ghost use Rattle.fort_open_checker.specs.OpenOutcomeView.{as_outcome};
ghost use Rattle.fort_open_checker.specs.OpenCheckers.{IsOpenCheckerOf, IsOpenCheckDone};

use crate::found::{check_nodes, node_form};
use crate::nodes::NodeRoom;
use crate::outcome::{Unconfirmed, other_claim};
use fort_cert_checker::{Rejected, StepChecker, WholeRoom, accepts_some};
use fort_check_steps::Reason;
use fort_formulas::Core;
use fort_steps::{Claim, OpenCertificate};
use fort_terms::{System, has_numbers};
use std::alloc::{AllocError, Global};

/// Checks a certificate of an open formula, in room that is taken before.
#[derive(Drop)]
pub struct OpenChecker<'a> {
    steps: StepChecker<'a>,
    certificate: &'a OpenCertificate,
    /// For the targets of the formula's table.
    whole: WholeRoom,
    nodes: NodeRoom,
}

/// Whether there are numbers for the forms of a certificate.
fn has_forms(certificate: &OpenCertificate) -> bool
    ensures { IsTrue result ↔ (certificate.now.first + 1 + length certificate.now.steps.items
        + length certificate.now.nodes.items < 2 ^ 32) }
{
    let before = (certificate.first as usize).saturating_add(1);
    let steps = before.saturating_add(certificate.steps.len());
    has_numbers(steps.saturating_add(certificate.nodes.len()))
}

impl<'a> OpenChecker<'a> {
    /// Takes all the memory that the check needs. More parts, forms, or targets or classes of a part than there are numbers of 32 bits
    /// are want of memory.
    pub fn new(
        alloc: Global,
        system: &'a System,
        core: &'a Core,
        certificate: &'a OpenCertificate,
    ) -> Result<OpenChecker<'a>, AllocError>
        requires decided { IsDecided system.now (as_core core.now) }
        requires open { 0 < length (columns_of (as_core core.now)) }
        ensures { IfOk result (IsOpenCheckerOf system.now (as_core core.now)
            (as_open certificate.now)) }
    {
        if !has_forms(certificate) {
            return Err(AllocError);
        }
        let listed = certificate.steps.as_slice();
        let steps = StepChecker::new(alloc, system, core, certificate.first, listed)?;
        let whole = steps.whole_room(alloc)?;
        let nodes = NodeRoom::new(alloc, certificate.nodes.len())?;
        Ok(OpenChecker {
            steps,
            certificate,
            whole,
            nodes,
        })
    }

    /// Where the claim is that no terms satisfy the formula.
    fn check_empty(&self) -> Result<Claim, Unconfirmed>
        requires { (system : PatternSystem) × (f : theory.Core)
            × (c : definitions.OpenCertificate) × (made : MadeSoFar)
            × IsOpenCheckDone system f c self.now made }
        ensures { (system : PatternSystem) (f : theory.Core) (c : definitions.OpenCertificate)
            (made : MadeSoFar) → IsOpenCheckDone system f c self.now made
            → c.claim ≡ definitions.Empty → HasOpenOutcome system f c (as_outcome result) }
    {
        if !self.certificate.nodes.is_empty() {
            return Err(Unconfirmed::Rejected(Rejected {
                form: node_form(self.certificate, 0),
                place: 0,
                reason: Reason::Due,
            }));
        }
        let table = self.steps.whole();
        let some = accepts_some(&table);
        if some {
            Err(other_claim(self.certificate))
        } else {
            Ok(Claim::Empty)
        }
    }

    /// Where the claim is that the terms of the last node satisfy it.
    fn check_found(&mut self) -> Result<Claim, Unconfirmed>
        requires { (system : PatternSystem) × (f : theory.Core)
            × (c : definitions.OpenCertificate) × (made : MadeSoFar)
            × IsOpenCheckDone system f c self.old made }
        ensures outcome { (system : PatternSystem) (f : theory.Core)
            (c : definitions.OpenCertificate) (made : MadeSoFar)
            → IsOpenCheckDone system f c self.old made
            → c.claim ≡ definitions.Found → HasOpenOutcome system f c (as_outcome result) }
        ensures again { (system : PatternSystem) (f : theory.Core)
            (c : definitions.OpenCertificate) → IsOpenCheckerOf system f c self.old
            → IsOpenCheckerOf system f c self.new }
    {
        let table = self.steps.whole();
        table.lay(&mut self.whole.list, &mut self.whole.lay);
        let table = table.listed(&self.whole.list);
        check_nodes(&table, self.certificate, &mut self.nodes)
    }

    /// Checks the certificate: its claim, which is true of the formula, or the first form that fails. It takes no memory, and answers
    /// the same when it is called again.
    pub fn check(&mut self) -> Result<Claim, Unconfirmed>
        requires { (system : PatternSystem) × (f : theory.Core)
            × (c : definitions.OpenCertificate) × IsOpenCheckerOf system f c self.old }
        ensures outcome { (system : PatternSystem) (f : theory.Core)
            (c : definitions.OpenCertificate) → IsOpenCheckerOf system f c self.old
            → HasOpenOutcome system f c (as_outcome result) }
        ensures truth { IfOk result (λ claim. (system : PatternSystem) (f : theory.Core)
            (c : definitions.OpenCertificate) → IsOpenCheckerOf system f c self.old
            → Proves system f c (as_claim claim)) }
        ensures again { (system : PatternSystem) (f : theory.Core)
            (c : definitions.OpenCertificate) → IsOpenCheckerOf system f c self.old
            → IsOpenCheckerOf system f c self.new }
    {
        if let Err(rejected) = self.steps.check() {
            return Err(Unconfirmed::Rejected(rejected));
        }
        match self.certificate.claim {
            Claim::Found => self.check_found(),
            Claim::Empty => self.check_empty(),
        }
    }
}
