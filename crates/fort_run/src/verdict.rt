//! What a question about a formula comes to over an input.
ghost use Rattle.std.specs.Prelude.{◌≡◌, List, None, length, IfOk, IfErr, OnOk};
ghost use Rattle.fort_theory.specs.Sides as theory;
ghost use Rattle.fort_theory.specs.Patterns.{PatternSystem, pattern_system};
ghost use Rattle.fort_theory.specs.Trees.{Tree};
ghost use Rattle.fort_logic.specs.Formulas as logic;
ghost use Rattle.fort_logic.specs.KeepsTruth.{KeepsTruth};
ghost use Rattle.fort_theory.specs.PatternStructures.{pattern_structure};
ghost use Rattle.fort_logic.specs.Translation.{core_of};
ghost use Rattle.fort_formulas.specs.CoreView.{as_core};
ghost use Rattle.fort_formulas.specs.FormulaView.{as_formula};
ghost use Rattle.fort_parts.specs.DecidedCores.{IsDecided};
ghost use Rattle.fort_parts.specs.PartAnswers.{IsAnswerTo};
ghost use Rattle.fort_answers.specs.DecideAnswer.{TruthVerdict};
ghost use Rattle.fort_answers.specs.FormulaAnswer.{Any, Closed, Open, IsTaken};
ghost use Rattle.fort_answers.specs.InputAnswer.{Behind as BehindOf, ACertificate, AnOpenCertificate, NoRules};
ghost use Rattle.fort_engine.specs.AnswerView.{as_answer, HasStatesWithin, IfOver, KeepsCapAt, IsLimit};
ghost use Rattle.fort_questions.specs.Inputs.{IsBehind};
ghost use Rattle.fort_run.specs.OpenTexts.{IsTextOf};
ghost use Rattle.fort_run.specs.Posed.{IsPosed, Settles, SettlesCore};
ghost use Rattle.fort_questions.specs.Questions.{CanBePut, openness_of, tail_of};
ghost use Rattle.fort_run.specs.Ready.{IsLawful, IsReady, IsDecidedBy};
ghost use Rattle.fort_run.specs.StatusView.{code_of};
ghost use Rattle.fort_questions.specs.declared.question.Question.TheVariants.{Truth, Terms, Certificate, TermsCertificate, Check, Solutions, Confirm};

use crate::checked::checked;
use crate::confirmed::confirmed;
use crate::limit::limit_reply;
use crate::reply::Reply;
use crate::solutions::solutions;
use crate::status::Status;
use crate::synth::synth;
use crate::witness::witness;
use fort_certificate::Version;
use fort_engine::{EngineFault, Last, decide_with};
use fort_formulas::{Core, CoreFault, Formula, to_core};
use fort_questions::{Behind, Input, Question};
use fort_table::Table;
use fort_terms::{System, Term};
use fort_trace::{OpenRecorded, decide_with_steps, table_with_steps};
use fort_witness::{least, needed_nodes};
use fort_words::{Bounds, Options};
use std::alloc::{AllocError, Global};

/// The core formula of a formula that speaks of nothing but what the system has.
pub fn core_for(
    alloc: Global,
    system: &System,
    formula: &Formula,
    terms: &[Term],
) -> Result<Core, AllocError>
    requires { IsReady (as_formula formula.now) system.now terms.now }
    ensures is { IfOk result (λ c. as_core c ≡ core_of terms.now (as_formula formula.now)) }
    ensures truth { IfOk result (λ c.
        KeepsTruth terms.now (as_formula formula.now) (as_core c)) }
    ensures decided { IfOk result (λ c. IsDecided system.now (as_core c)) }
{
    // Each system has an index 1.
    let _number = system.number();
    match to_core(alloc, formula, terms) {
        Ok(core) => Ok(core),
        Err(CoreFault::Memory) => Err(AllocError),
        Err(CoreFault::TooManyNumbers) | Err(CoreFault::TooWide) => unreachable!(),
    }
}

/// The answer to a core formula.
pub fn answer_to(
    alloc: Global,
    system: &System,
    core: &Core,
    options: Options,
) -> Result<Last, EngineFault>
    requires { IsDecided system.now (as_core core.now) }
    ensures truth { IfOk result (λ last. IsAnswerTo (pattern_structure system.now)
        (as_core core.now) (as_answer last)) }
    ensures within { OnOk result (KeepsCapAt system.now options.reduces (as_core core.now)
        options.states) }
    ensures states { IfOk result (HasStatesWithin options.states) }
    ensures over { IfErr result (λ e. IfOver e
        (IsLimit system.now options.reduces (as_core core.now) options.states)) }
{
    let how = fort_engine::Options::with(options.states, options.reduces);
    match decide_with(alloc, system, core, &how) {
        Ok(trace) => Ok(trace.last),
        Err(fault) => Err(fault),
    }
}

/// Whether a formula is true, by the answer to its core formula.
fn truth_of(alloc: Global, last: &Last) -> Result<Reply, AllocError>
    requires { (f : logic.Formula) × (system : PatternSystem) × (terms : List Tree)
        × IsTaken Closed f × IsDecidedBy f system terms last.now }
    ensures verdict { IfOk result (λ r. (f : logic.Formula) (p : theory.System) (terms : List Tree)
        → IsLawful p → IsTaken Closed f → IsDecidedBy f (pattern_system p) terms last.now
        → TruthVerdict p terms f (code_of r.status) r.text.items) }
    ensures limit { IfOk result (λ r. r.limit ≡ None) }
{
    match last {
        Last::Truth(true) => Reply::line(alloc, Status::Positive, b"YES\n"),
        Last::Truth(false) => Reply::line(alloc, Status::Negative, b"NO\n"),
        Last::Auto(_) => unreachable!(),
    }
}

/// Whether a formula is true, by its core formula.
pub fn truth(
    alloc: Global,
    system: &System,
    core: &Core,
    options: Options,
) -> Result<Reply, AllocError>
    requires { (f : logic.Formula) × (terms : List Tree)
        × IsPosed Closed f system.now terms (as_core core.now) }
    ensures { IfOk result (λ r. (f : logic.Formula)
        → SettlesCore (Truth options) system.now tt (as_core core.now) f r) }
{
    match answer_to(alloc, system, core, options) {
        Ok(last) => truth_of(alloc, &last),
        Err(fault) => limit_reply(alloc, fault, options.states),
    }
}

/// The least terms that satisfy a formula, by its core formula.
fn least_terms(
    alloc: Global,
    system: &System,
    formula: &Formula,
    core: &Core,
    options: Options,
) -> Result<Reply, AllocError>
    requires { (terms : List Tree)
        × IsPosed Any (as_formula formula.now) system.now terms (as_core core.now) }
    ensures { IfOk result (SettlesCore (Terms options) system.now tt
        (as_core core.now) (as_formula formula.now)) }
{
    match answer_to(alloc, system, core, options) {
        Ok(last) => witness(alloc, system.signature(), formula, &last),
        Err(fault) => limit_reply(alloc, fault, options.states),
    }
}

/// The text of the certificate with these steps, and with the nodes of the least terms that the table accepts.
fn terms_text(alloc: Global, recorded: &OpenRecorded) -> Result<Vec<u8>, AllocError>
    ensures { IfOk result (λ text. IsTextOf recorded.now text.items) }
{
    // its clause says that the table is lawful
    let _states = recorded.table.states();
    match least(alloc, &recorded.table)? {
        Some(dag) => {
            let nodes = needed_nodes(alloc, &dag)?;
            fort_certificate::open_text(alloc, &recorded.steps, Some(&nodes))
        }
        None => fort_certificate::open_text(alloc, &recorded.steps, None),
    }
}

/// The certificate that is written for an open formula, by its core formula.
fn terms_certificate(
    alloc: Global,
    system: &System,
    core: &Core,
    options: Options,
) -> Result<Reply, AllocError>
    requires { (f : logic.Formula) × (terms : List Tree)
        × IsPosed Open f system.now terms (as_core core.now) }
    ensures { IfOk result (λ r. (f : logic.Formula)
        → SettlesCore (TermsCertificate options) system.now tt (as_core core.now) f r) }
{
    match table_with_steps(alloc, system, core, options.states, options.reduces) {
        Ok(recorded) => Ok(Reply::of(Status::Positive, terms_text(alloc, &recorded)?)),
        Err(fault) => limit_reply(alloc, fault, options.states),
    }
}

/// The first terms up to a height that satisfy an open formula, by its core formula.
fn first_terms(
    alloc: Global,
    system: &System,
    formula: &Formula,
    core: &Core,
    options: Options,
    bounds: Bounds,
) -> Result<Reply, AllocError>
    requires posed { (terms : List Tree)
        × IsPosed Open (as_formula formula.now) system.now terms (as_core core.now) }
    requires possible { CanBePut (Solutions options bounds) }
    ensures { IfOk result (SettlesCore (Solutions options bounds) system.now tt
        (as_core core.now) (as_formula formula.now)) }
{
    match answer_to(alloc, system, core, options) {
        Ok(last) => solutions(alloc, system.signature(), formula, &last, bounds),
        Err(fault) => limit_reply(alloc, fault, options.states),
    }
}

/// The certificate that is written for a formula, by its core formula.
fn certificate(
    alloc: Global,
    system: &System,
    core: &Core,
    options: Options,
) -> Result<Reply, AllocError>
    requires { (f : logic.Formula) × (terms : List Tree)
        × IsPosed Closed f system.now terms (as_core core.now) }
    ensures { IfOk result (λ r. (f : logic.Formula)
        → SettlesCore (Certificate options) system.now tt (as_core core.now) f r) }
{
    match decide_with_steps(alloc, system, core, options.states, options.reduces) {
        Ok(recorded) => {
            let version = Version::new(options.reduces, system.number());
            let text = fort_certificate::text(alloc, version, recorded.verdict, &recorded.steps)?;
            Ok(Reply::of(Status::Positive, text))
        }
        Err(fault) => limit_reply(alloc, fault, options.states),
    }
}

/// What comes of the certificate behind the problem of an input, by the core formula of a closed formula.
fn checked_behind(alloc: Global, input: &Input, core: &Core) -> Result<Reply, AllocError>
    requires posed { (f : logic.Formula) × (terms : List Tree)
        × IsPosed Closed f input.now.system terms (as_core core.now) }
    requires behind { (behind : BehindOf ACertificate)
        × IsBehind ACertificate input.now.behind behind }
    ensures { IfOk result (λ r. (f : logic.Formula) (behind : BehindOf ACertificate)
        → IsBehind ACertificate input.now.behind behind
        → SettlesCore Check input.now.system behind (as_core core.now) f r) }
{
    match &input.behind {
        Behind::Certificate(certificate) => checked(alloc, &input.system, core, certificate),
        Behind::Nothing | Behind::OpenCertificate(_) => unreachable!(),
    }
}

/// The same of an open formula.
fn confirmed_behind(
    alloc: Global,
    input: &Input,
    formula: &Formula,
    core: &Core,
) -> Result<Reply, AllocError>
    requires posed { (terms : List Tree)
        × IsPosed Open (as_formula formula.now) input.now.system terms (as_core core.now) }
    requires behind { (behind : BehindOf AnOpenCertificate)
        × IsBehind AnOpenCertificate input.now.behind behind }
    ensures { IfOk result (λ r. (behind : BehindOf AnOpenCertificate)
        → IsBehind AnOpenCertificate input.now.behind behind → SettlesCore Confirm
        input.now.system behind (as_core core.now) (as_formula formula.now) r) }
{
    match &input.behind {
        Behind::OpenCertificate(open) => confirmed(alloc, &input.system, formula, core, open),
        Behind::Nothing | Behind::Certificate(_) => unreachable!(),
    }
}

/// The reply to a question about a formula, by its core formula.
fn reply_by_core(
    alloc: Global,
    question: Question,
    input: &Input,
    formula: &Formula,
    core: &Core,
) -> Result<Reply, AllocError>
    requires posed { (terms : List Tree) × IsPosed (openness_of question)
        (as_formula formula.now) input.now.system terms (as_core core.now) }
    requires possible { CanBePut question }
    requires behind { (behind : BehindOf (tail_of question))
        × IsBehind (tail_of question) input.now.behind behind }
    requires single { tail_of question ≡ NoRules → length input.now.system.rules ≡ 1 }
    ensures { IfOk result (λ r. (terms : List Tree) → IsPosed (openness_of question)
        (as_formula formula.now) input.now.system terms (as_core core.now)
        → Settles question input.now terms (as_formula formula.now) r) }
{
    let system = &input.system;
    match question {
        Question::Truth(options) => truth(alloc, system, core, options),
        Question::Certificate(options) => certificate(alloc, system, core, options),
        Question::Terms(options) => least_terms(alloc, system, formula, core, options),
        Question::TermsCertificate(options) => terms_certificate(alloc, system, core, options),
        Question::Check => checked_behind(alloc, input, core),
        Question::Confirm => confirmed_behind(alloc, input, formula, core),
        Question::Synth(options, family) => synth(alloc, system, core, options, family),
        Question::Solutions(options, bounds) => {
            first_terms(alloc, system, formula, core, options, bounds)
        }
    }
}

/// The reply to a question about a formula that speaks of nothing but what the input has.
pub fn verdict(
    alloc: Global,
    question: Question,
    input: &Input,
    formula: &Formula,
    terms: &[Term],
) -> Result<Reply, AllocError>
    requires ready { IsReady (as_formula formula.now) input.now.system terms.now }
    requires taken { IsTaken (openness_of question) (as_formula formula.now) }
    requires possible { CanBePut question }
    requires behind { (behind : BehindOf (tail_of question))
        × IsBehind (tail_of question) input.now.behind behind }
    requires single { tail_of question ≡ NoRules → length input.now.system.rules ≡ 1 }
    ensures { IfOk result (Settles question input.now terms.now (as_formula formula.now)) }
{
    let core = core_for(alloc, &input.system, formula, terms)?;
    reply_by_core(alloc, question, input, formula, &core)
}
