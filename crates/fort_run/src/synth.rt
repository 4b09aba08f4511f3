//! The first system of a family that makes a formula true.
ghost use Rattle.std.specs.Prelude.{◌≡◌, ◌<◌, ◌≤◌, [], ◌++◌, ◌^◌, All, List, None, length, map, IfOk, IfErr, IfSome, IfNone, OnOk};
ghost use Rattle.fort_theory.specs.Trees.{Tree};
ghost use Rattle.fort_theory.specs.Signatures.{HasConstant};
ghost use Rattle.fort_logic.specs.Formulas as logic;
ghost use Rattle.fort_theory.specs.Cores as theory;
ghost use Rattle.fort_answers.specs.FamilyRules.{Ascend, FamilyRule, IsFamily, most_family_rules};
ghost use Rattle.fort_answers.specs.FamilySystems.{any_count};
ghost use Rattle.fort_answers.specs.RuleText.{rule_lines};
ghost use Rattle.fort_synth.specs.FamilyView.{as_family_rule};
ghost use Rattle.fort_synth.specs.SearchAnswers.{FitsRule, IfDecide};
ghost use Rattle.fort_formulas.specs.CoreView.{as_core};
ghost use Rattle.fort_words.specs.RequestView.{as_family};
ghost use Rattle.fort_answers.specs.FormulaAnswer.{Closed};
ghost use Rattle.fort_answers.specs.Lines.{positive};
ghost use Rattle.fort_answers.specs.PossibleRequests.{IsFamilyInRange};
ghost use Rattle.fort_answers.specs.SynthAnswer.{system_line};
ghost use Rattle.fort_parts.specs.PartColumns.{columns_of};
ghost use Rattle.fort_engine.specs.AnswerView.{IfOver, IsLimit};
ghost use Rattle.fort_engine.specs.Deciding.{IsPlanned};
ghost use Rattle.fort_run.specs.Posed.{IsPosed, SettlesCore};
ghost use Rattle.fort_run.specs.Searches.{AreAllFalse, HasValue, IsDecidedOverAll, IsFirstOver, IsFirstTrue, IsSystemOf, TellsStopFault};
ghost use Rattle.fort_run.specs.StatusView.{code_of};
ghost use Rattle.fort_questions.specs.declared.question.Question.TheVariants.{Synth};

use crate::limit::limit_line;
use crate::reply::Reply;
use crate::status::Status;
use fort_engine::{EngineFault, Last, decide_outlined};
use fort_formulas::Core;
use fort_outline::Outline;
use fort_synth::{FamilyFault, SynthFault, first_system, write_rules};
use fort_terms::{Pattern, Signature, System, Term};
use fort_words::{Family, Options};
use std::alloc::{AllocError, Global};

/// Whether a closed core formula, of which this is the outline, is true over a system.
fn is_true_over(
    alloc: Global,
    system: &System,
    outline: &Outline,
    options: Options,
) -> Result<bool, EngineFault>
    requires { (root : theory.Core) × IsPlanned system.now root outline.now
        × (columns_of root ≡ []) }
    ensures value { IfOk result (λ value. (root : theory.Core)
        → IsPlanned system.now root outline.now → HasValue options root system.now value) }
    ensures over { IfErr result (λ e. (root : theory.Core)
        → IsPlanned system.now root outline.now
        → IfOver e (IsLimit system.now options.reduces root options.states)) }
{
    let how = fort_engine::Options::with(options.states, options.reduces);
    match decide_outlined(alloc, system, outline, &how) {
        Ok(trace) => match trace.last {
            Last::Truth(value) => Ok(value),
            Last::Auto(_) => unreachable!(),
        },
        Err(fault) => Err(fault),
    }
}

/// The reply that a system makes the formula true, with its rules.
fn found_reply(alloc: Global, system: &System) -> Result<Reply, AllocError>
    requires { (rules : List FamilyRule) × IsSystemOf system.now rules
        × All (λ (r : FamilyRule). any_count r.0 < 2 ^ 32) rules }
    ensures status { IfOk result (λ r. code_of r.status ≡ positive) }
    ensures text { IfOk result (λ r. (rules : List FamilyRule) → IsSystemOf system.now rules
        → r.text.items ≡ system_line ++ rule_lines system.now.signature rules) }
    ensures limit { IfOk result (λ r. r.limit ≡ None) }
{
    let mut text = Vec::from_slice(alloc, b"SYSTEM\n")?;
    write_rules(alloc, system, &mut text)?;
    Ok(Reply::of(Status::Positive, text))
}

/// The reply that a part of the formula is over the cap over a system, with its rules.
fn stopped_reply(
    alloc: Global,
    system: &System,
    fault: EngineFault,
    cap: u32,
) -> Result<Reply, AllocError>
    requires { (rules : List FamilyRule) × IsSystemOf system.now rules
        × All (λ (r : FamilyRule). any_count r.0 < 2 ^ 32) rules }
    ensures { IfOk result (TellsStopFault cap fault system.now) }
{
    match fault {
        EngineFault::Memory => Err(AllocError),
        EngineFault::Over(limit) => {
            let mut text = limit_line(alloc, limit.part, limit.kind, cap)?;
            write_rules(alloc, system, &mut text)?;
            Ok(Reply::limited(text, limit))
        }
    }
}

/// The first system of these rules of a family over which a closed core formula is true, or over which some part of it is over the cap.
fn first_true(
    alloc: Global,
    signature: &Signature,
    core: &Core,
    options: Options,
    count: u32,
    rules: &[(Pattern, Term)],
) -> Result<Option<System>, SynthFault<EngineFault>>
    requires constant { HasConstant signature.now }
    requires fits { All (FitsRule signature.now) (map as_family_rule rules.now) }
    requires ascend { Ascend (map as_family_rule rules.now) }
    requires some { 1 ≤ count }
    requires few { count ≤ 4 }
    requires decided { IsDecidedOverAll signature.now (map as_family_rule rules.now) count
        (as_core core.now) }
    requires closed { columns_of (as_core core.now) ≡ [] }
    ensures found { IfOk result (λ o. IfSome o (IsFirstTrue options (as_core core.now)
        signature.now (map as_family_rule rules.now) count)) }
    ensures none { IfOk result (λ o. IfNone o (AreAllFalse options (as_core core.now)
        signature.now (map as_family_rule rules.now) count)) }
    ensures over { IfErr result (λ e. IfDecide e (IsFirstOver options (as_core core.now)
        signature.now (map as_family_rule rules.now) count)) }
{
    let outline = Outline::new(alloc, core)?;
    let decide = |candidate: &System| is_true_over(alloc, candidate, &outline, options);
    first_system(alloc, signature, count as usize, rules, &decide)
}

/// The reply to a search through the systems of these rules of a family.
fn search(
    alloc: Global,
    system: &System,
    core: &Core,
    options: Options,
    family: Family,
    rules: &[(Pattern, Term)],
) -> Result<Reply, AllocError>
    requires posed { (f : logic.Formula) × (terms : List Tree)
        × IsPosed Closed f system.now terms (as_core core.now) }
    requires single { length system.now.rules ≡ 1 }
    requires range { IsFamilyInRange (as_family family) }
    requires are { IsFamily system.now.signature family.height (map as_family_rule rules.now) }
    requires few { length rules.now ≤ most_family_rules }
    ensures { IfOk result (λ r. (f : logic.Formula)
        → SettlesCore (Synth options family) system.now tt (as_core core.now) f r) }
{
    let signature = system.signature();
    // its clause says that the signature is lawful
    let _symbols = signature.len();
    match first_true(alloc, signature, core, options, family.count, rules) {
        Ok(Some(found)) => found_reply(alloc, &found),
        Ok(None) => Reply::line(alloc, Status::Negative, b"NO SYSTEM\n"),
        Err(SynthFault::Memory) => Err(AllocError),
        Err(SynthFault::Decide { system, fault }) => {
            stopped_reply(alloc, &system, fault, options.states)
        }
    }
}

/// The first system of a family over a signature that makes a closed formula true, by its core formula; the system given has no rules.
pub fn synth(
    alloc: Global,
    system: &System,
    core: &Core,
    options: Options,
    family: Family,
) -> Result<Reply, AllocError>
    requires posed { (f : logic.Formula) × (terms : List Tree)
        × IsPosed Closed f system.now terms (as_core core.now) }
    requires single { length system.now.rules ≡ 1 }
    requires range { IsFamilyInRange (as_family family) }
    ensures { IfOk result (λ r. (f : logic.Formula)
        → SettlesCore (Synth options family) system.now tt (as_core core.now) f r) }
{
    match fort_synth::family(alloc, system.signature(), family.height) {
        Ok(rules) => search(alloc, system, core, options, family, &rules),
        Err(FamilyFault::Memory) => Err(AllocError),
        Err(FamilyFault::TooLarge) => {
            Reply::line(alloc, Status::Refused, b"REFUSED family too large\n")
        }
    }
}
