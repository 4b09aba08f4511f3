//! The formula of a text, or the line that refuses it.
ghost use Rattle.std.specs.Prelude.{◌↔◌, ℕ, List, ◌<◌, ◌^◌, length, IsTrue, IfOk, IfErr, MatchOption};
ghost use Rattle.fort_logic.specs.Mentions.{HasPlacesBelow};
ghost use Rattle.fort_logic.specs.Translation.{IsFormulaTooWide};
ghost use Rattle.fort_formula_grammar.specs.FormulaText.{IsFormulaText};
ghost use Rattle.fort_answers.specs.FormulaAnswer.{Closed, Open, IsTaken, IsNotTaken, IsAcceptedAs, IsRefusedAs};
ghost use Rattle.fort_formulas.specs.FormulaView.{as_formula};
ghost use Rattle.fort_formulas.specs.NumbersNeeded.{numbers_needed};
ghost use Rattle.fort_formula_parser.specs.ParsedView.{AreShort};
ghost use Rattle.fort_questions.specs.Accepted.{IsParsedAs};
ghost use Rattle.fort_questions.specs.Questions.{as_openness};
ghost use Rattle.fort_questions.specs.Refusals.{Refuses};

use crate::question::Openness;
use crate::refusal::{Refusal, formula_line, open_line};
use fort_formula_parser::{Parsed, parse};
use fort_formulas::{CoreFault, Formula, free_names, too_wide};
use std::alloc::{AllocError, Global};

/// Whether some part of a formula is too wide.
fn is_too_wide(alloc: Global, formula: &Formula) -> Result<bool, AllocError>
    requires { numbers_needed (as_formula formula.now) < 2 ^ 32 }
    ensures { IfOk result (λ wide. IsTrue wide ↔ IsFormulaTooWide (as_formula formula.now)) }
{
    match too_wide(alloc, formula) {
        Ok(wide) => Ok(wide),
        Err(CoreFault::Memory) => Err(AllocError),
        Err(CoreFault::TooManyNumbers) | Err(CoreFault::TooWide) => unreachable!(),
    }
}

/// The line that refuses a formula that is not closed.
fn open_refusal(alloc: Global, formula: &Formula) -> Result<Option<Vec<u8>>, AllocError>
    ensures { IfOk result (λ refusal. MatchOption refusal (IsTaken Closed (as_formula formula.now))
        (λ line. IsNotTaken Closed (as_formula formula.now) line.items)) }
{
    let names = free_names(alloc, formula)?;
    match names.first() {
        Some(name) => Ok(Some(open_line(alloc, name.as_bytes())?)),
        None => Ok(None),
    }
}

/// The line that refuses a formula that is not open.
fn closed_refusal(alloc: Global, formula: &Formula) -> Result<Option<Vec<u8>>, AllocError>
    ensures { IfOk result (λ refusal. MatchOption refusal (IsTaken Open (as_formula formula.now))
        (λ line. IsNotTaken Open (as_formula formula.now) line.items)) }
{
    let names = free_names(alloc, formula)?;
    if names.is_empty() {
        return Ok(Some(Vec::from_slice(alloc, b"REFUSED formula closed\n")?));
    }
    Ok(None)
}

/// The line that refuses a formula that could be read, if there is one.
fn refusal_of(
    alloc: Global,
    openness: Openness,
    formula: &Formula,
) -> Result<Option<Vec<u8>>, AllocError>
    requires { numbers_needed (as_formula formula.now) < 2 ^ 32 }
    ensures { IfOk result (λ refusal. (text : List ℕ) → IsFormulaText text (as_formula formula.now)
        → MatchOption refusal (IsAcceptedAs (as_openness openness) text (as_formula formula.now))
        (λ line. IsRefusedAs (as_openness openness) text line.items)) }
{
    if is_too_wide(alloc, formula)? {
        return Ok(Some(Vec::from_slice(alloc, b"REFUSED formula too wide\n")?));
    }
    match openness {
        Openness::Any => Ok(None),
        Openness::Closed => open_refusal(alloc, formula),
        Openness::Open => closed_refusal(alloc, formula),
    }
}

/// The formula of a text, where one such is taken, with the ground terms that are written in it.
pub fn accepted_formula(alloc: Global, openness: Openness, text: &[u8]) -> Result<Parsed, Refusal>
    ensures ok { IfOk result (IsParsedAs (as_openness openness) text.now) }
    ensures short { IfOk result (λ p. AreShort p.grounds.items) }
    ensures places { IfOk result (λ p.
        HasPlacesBelow (length p.grounds.items) (as_formula p.formula)) }
    ensures small { IfOk result (λ p. numbers_needed (as_formula p.formula) < 2 ^ 32) }
    ensures refused { IfErr result (Refuses (IsRefusedAs (as_openness openness) text.now)) }
{
    let parsed = match parse(alloc, text) {
        Ok(parsed) => parsed,
        Err(fault) => return Err(Refusal::Line(formula_line(alloc, &fault)?)),
    };
    match refusal_of(alloc, openness, &parsed.formula)? {
        None => Ok(parsed),
        Some(line) => Err(Refusal::Line(line)),
    }
}
