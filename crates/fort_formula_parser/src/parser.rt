//! Formulas by recursive descent, one function for each production.

ghost use Rattle.std.specs.Prelude.{◌≡◌, ◌+◌, ◌^◌, ◌<◌, ◌≤◌, length, IfOk, IfErr};
ghost use Rattle.fort_formula_grammar.specs.FormulaGrammar.{IsUnary, IsBound};
ghost use Rattle.fort_formula_grammar.specs.Stuck.{StuckUnary, StuckBinders, StuckConjunction, StuckDisjunction, StuckImplication, StuckFormula, StuckBody};
ghost use Rattle.fort_formulas.specs.FormulaView.{as_formula};
ghost use Rattle.fort_formula_parser.specs.Parsing.{AreFewGrounds, IsMade, IsParsed, IsStuckAt, IsWholeFormula, IsWholeImplication, IsWholeDisjunction, IsWholeConjunction, IsBody, as_quantifier};

use crate::atom::{compared, joinable, normal_form, property_formula, terminating};
use crate::cursor::{Mark, argument_at, is_next, variable_at};
use crate::reading::{Connective, Quantifier, Reading, bound, infinite, joined, negated};
use crate::stuck::Stuck;
use crate::token::{Lexeme, Token};
use fort_formulas::Formula;
use std::alloc::Global;

/// The longest formula that begins at a place.
#[cycle(parser)]
pub(crate) fn formula(alloc: Global, lexemes: &[Lexeme], at: usize) -> Result<Reading, Stuck>
    requires within { at ≤ length lexemes.now }
    requires few { AreFewGrounds lexemes.now }
    ensures ok { IfOk result (IsParsed IsWholeFormula lexemes.now at) }
    ensures err { IfErr result (IsStuckAt StuckFormula lexemes.now at) }
{
    let left = implication(alloc, lexemes, at)?;
    if !is_next(lexemes, left.next, Mark::Iff) {
        return Ok(left);
    }
    let right = implication(alloc, lexemes, left.next + 1)?;
    if is_next(lexemes, right.next, Mark::Iff) {
        return Err(Stuck(right.next));
    }
    Ok(joined(alloc, Connective::Iff, left, right))
}

/// The longest implication that begins at a place.
#[cycle(parser)]
fn implication(alloc: Global, lexemes: &[Lexeme], at: usize) -> Result<Reading, Stuck>
    requires within { at ≤ length lexemes.now }
    requires few { AreFewGrounds lexemes.now }
    ensures ok { IfOk result (IsParsed IsWholeImplication lexemes.now at) }
    ensures err { IfErr result (IsStuckAt StuckImplication lexemes.now at) }
{
    let premise = disjunction(alloc, lexemes, at)?;
    if !is_next(lexemes, premise.next, Mark::Imp) {
        return Ok(premise);
    }
    let conclusion = implication(alloc, lexemes, premise.next + 1)?;
    Ok(joined(alloc, Connective::Imp, premise, conclusion))
}

/// The longest disjunction that begins at a place.
#[cycle(parser)]
fn disjunction(alloc: Global, lexemes: &[Lexeme], at: usize) -> Result<Reading, Stuck>
    requires within { at ≤ length lexemes.now }
    requires few { AreFewGrounds lexemes.now }
    ensures ok { IfOk result (IsParsed IsWholeDisjunction lexemes.now at) }
    ensures err { IfErr result (IsStuckAt StuckDisjunction lexemes.now at) }
{
    let mut left = conjunction(alloc, lexemes, at)?;
    'more: while is_next(lexemes, left.next, Mark::Or) {
        let right = conjunction(alloc, lexemes, left.next + 1)?;
        left = joined(alloc, Connective::Or, left, right);
    }
    Ok(left)
}

/// The longest conjunction that begins at a place.
#[cycle(parser)]
fn conjunction(alloc: Global, lexemes: &[Lexeme], at: usize) -> Result<Reading, Stuck>
    requires within { at ≤ length lexemes.now }
    requires few { AreFewGrounds lexemes.now }
    ensures ok { IfOk result (IsParsed IsWholeConjunction lexemes.now at) }
    ensures err { IfErr result (IsStuckAt StuckConjunction lexemes.now at) }
{
    let mut left = unary(alloc, lexemes, at)?;
    'more: while is_next(lexemes, left.next, Mark::And) {
        let right = unary(alloc, lexemes, left.next + 1)?;
        left = joined(alloc, Connective::And, left, right);
    }
    Ok(left)
}

/// The formula with no connective between others that begins at a place.
#[cycle(parser)]
fn unary(alloc: Global, lexemes: &[Lexeme], at: usize) -> Result<Reading, Stuck>
    requires within { at ≤ length lexemes.now }
    requires few { AreFewGrounds lexemes.now }
    ensures ok { IfOk result (IsParsed IsUnary lexemes.now at) }
    ensures err { IfErr result (IsStuckAt StuckUnary lexemes.now at) }
{
    let Some(lexeme) = lexemes.get(at) else {
        return Err(Stuck(at));
    };
    match lexeme.token {
        Token::Not => Ok(negated(alloc, unary(alloc, lexemes, at + 1)?)),
        Token::Exists => binders(alloc, lexemes, at + 1, Quantifier::Exists),
        Token::Forall => binders(alloc, lexemes, at + 1, Quantifier::Forall),
        Token::Infinite => {
            let Some(x) = variable_at(lexemes, at + 1) else {
                return Err(Stuck(at + 1));
            };
            Ok(infinite(alloc, x, enclosed(alloc, lexemes, at + 2)?))
        }
        Token::Open => enclosed(alloc, lexemes, at),
        Token::True => Ok(constant(Formula::True, at)),
        Token::False => Ok(constant(Formula::False, at)),
        Token::Com => Ok(constant(Formula::Com, at)),
        Token::Has(property) => Ok(property_formula(lexemes, at, property)),
        Token::Nf => normal_form(alloc, lexemes, at),
        Token::Sn => terminating(alloc, lexemes, at),
        Token::Join => joinable(alloc, lexemes, at),
        _ => {
            let Some(x) = argument_at(lexemes, at) else {
                return Err(Stuck(at));
            };
            compared(alloc, lexemes, at, x)
        }
    }
}

/// A formula of one token.
fn constant(formula: Formula, at: usize) -> Reading
    requires { at + 1 < 2 ^ 64 }
    ensures made { IsMade result.made (as_formula formula) }
    ensures next { result.next ≡ at + 1 }
{
    Reading {
        made: Ok(formula),
        next: at + 1,
    }
}

/// Variables, with a formula in parentheses behind them, that begin at a place.
#[cycle(parser)]
fn binders(
    alloc: Global,
    lexemes: &[Lexeme],
    at: usize,
    quantifier: Quantifier,
) -> Result<Reading, Stuck>
    requires within { at ≤ length lexemes.now }
    requires few { AreFewGrounds lexemes.now }
    ensures ok { IfOk result (IsParsed (IsBound (as_quantifier quantifier)) lexemes.now at) }
    ensures err { IfErr result (IsStuckAt StuckBinders lexemes.now at) }
{
    let Some(x) = variable_at(lexemes, at) else {
        return Err(Stuck(at));
    };
    if is_next(lexemes, at + 1, Mark::Comma) {
        let others = binders(alloc, lexemes, at + 2, quantifier)?;
        return Ok(bound(alloc, quantifier, x, others));
    }
    let body = enclosed(alloc, lexemes, at + 1)?;
    Ok(bound(alloc, quantifier, x, body))
}

/// The formula in parentheses that begins at a place.
#[cycle(parser)]
fn enclosed(alloc: Global, lexemes: &[Lexeme], at: usize) -> Result<Reading, Stuck>
    requires within { at ≤ length lexemes.now }
    requires few { AreFewGrounds lexemes.now }
    ensures ok { IfOk result (IsParsed IsBody lexemes.now at) }
    ensures err { IfErr result (IsStuckAt StuckBody lexemes.now at) }
{
    if !is_next(lexemes, at, Mark::Open) {
        return Err(Stuck(at));
    }
    let Reading { made, next } = formula(alloc, lexemes, at + 1)?;
    if !is_next(lexemes, next, Mark::Close) {
        return Err(Stuck(next));
    }
    Ok(Reading {
        made,
        next: next + 1,
    })
}
