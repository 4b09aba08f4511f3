//! From a text to its formula.

ghost use Rattle.std.specs.Prelude.{◌≡◌, ◌^◌, ◌<◌, ◌≤◌, List, ℕ, length, map, IfOk, IfErr, IfSome, IsErrOf};
ghost use Rattle.fort_logic.specs.Formulas as theory;
ghost use Rattle.fort_logic.specs.Mentions.{HasPlacesBelow};
ghost use Rattle.fort_formula_grammar.specs.Stuck.{StuckWhole};
ghost use Rattle.fort_formula_grammar.specs.FormulaText.{AreGroundsOf, GoesWrongAt, IsFormulaText, IsFirstFormulaFault};
ghost use Rattle.fort_formula_grammar.specs.TokenText.{AreTokensOf};
ghost use Rattle.fort_formulas.specs.FormulaView.{as_formula};
ghost use Rattle.fort_formulas.specs.NumbersNeeded.{numbers_needed};
ghost use Rattle.fort_formula_parser.specs.declared.fault.FFault.TheVariants.{Memory};
ghost use Rattle.fort_formula_parser.specs.Faults.{as_formula_fault};
ghost use Rattle.fort_formula_parser.specs.ParsedView.{as_ground, AreShort};
ghost use Rattle.fort_formula_parser.specs.TokenView.{tokens_of};
ghost use Rattle.fort_formula_parser.specs.Parsing.{AreFewGrounds, IsStuckAt, IsWhole, rest_of};
ghost use Rattle.fort_formula_parser.specs.Places.{HavePlaces};

use crate::fault::FFault;
use crate::lexer::{lexemes, too_deep};
use crate::parsed::{Ground, Parsed};
use crate::parser::formula;
use crate::reading::Reading;
use crate::stuck::Stuck;
use crate::token::{Lexeme, Token};
use fort_formulas::Formula;
use std::alloc::{AllocError, Global};

/// The most tokens of a formula.
const MOST_TOKENS: usize = 1000;

/// What was made of all these tokens, which are a formula, or where they go wrong.
fn whole(alloc: Global, lexemes: &[Lexeme]) -> Result<Result<Formula, AllocError>, Stuck>
    requires { AreFewGrounds lexemes.now }
    ensures ok { IfOk result (IsWhole lexemes.now) }
    ensures err { IfErr result (IsStuckAt StuckWhole lexemes.now 0) }
{
    let Reading { made, next } = formula(alloc, lexemes, 0)?;
    if next < lexemes.len() {
        return Err(Stuck(next));
    }
    Ok(made)
}

/// The offset of the token at a place, or of the end of the text behind all tokens.
fn offset_of(text: &[u8], lexemes: &[Lexeme], place: usize) -> usize
    requires within { place ≤ length lexemes.now }
    requires places { HavePlaces text.now lexemes.now }
    ensures { StuckWhole (tokens_of lexemes.now) (rest_of lexemes.now place)
        → GoesWrongAt text.now (tokens_of lexemes.now) result }
{
    match lexemes.get(place) {
        Some(lexeme) => lexeme.at,
        None => text.len(),
    }
}

/// The ground terms among the tokens of a text.
fn grounds_among(alloc: Global, lexemes: &[Lexeme]) -> Result<Vec<Ground>, AllocError>
    ensures { IfOk result (λ gs. (text : List ℕ) → AreTokensOf text (tokens_of lexemes.now)
        → HavePlaces text lexemes.now → AreGroundsOf text (map as_ground gs.items)) }
{
    let mut grounds = Vec::new(alloc);
    for lexeme in lexemes {
        match lexeme.token {
            Token::Ground(_, text) => grounds.push(Ground {
                at: lexeme.at,
                text: Vec::from_slice(alloc, text)?,
            })?,
            _ => {}
        }
    }
    Ok(grounds)
}

/// The formula that these tokens of a text are, or its first fault. Want of memory comes behind each fault.
fn parse_tokens(alloc: Global, text: &[u8], lexemes: &[Lexeme]) -> Result<Parsed, FFault>
    requires tokens { AreTokensOf text.now (tokens_of lexemes.now) }
    requires places { HavePlaces text.now lexemes.now }
    ensures ok { IfOk result (λ p. IsFormulaText text.now (as_formula p.formula)) }
    ensures grounds { IfOk result (λ p. AreGroundsOf text.now (map as_ground p.grounds.items)) }
    ensures short { IfOk result (λ p. AreShort p.grounds.items) }
    ensures named { IfOk result (λ p.
        HasPlacesBelow (length p.grounds.items) (as_formula p.formula)) }
    ensures small { IfOk result (λ p. numbers_needed (as_formula p.formula) < 2 ^ 32) }
    ensures fault { IfErr result (λ e. IfSome (as_formula_fault e) (IsFirstFormulaFault text.now)) }
    ensures memory { IsErrOf result Memory → (f : theory.Formula) × IsFormulaText text.now f }
{
    if lexemes.len() > MOST_TOKENS {
        return Err(FFault::TooLong);
    }
    if let Some(at) = too_deep(lexemes) {
        return Err(FFault::TooDeep(at));
    }
    match whole(alloc, lexemes) {
        Ok(made) => Ok(Parsed {
            formula: made?,
            grounds: grounds_among(alloc, lexemes)?,
        }),
        Err(Stuck(place)) => Err(FFault::Syntax(offset_of(text, lexemes, place))),
    }
}

/// The formula that a text is, or its first fault, in the order of the variants of `FFault`, each
/// over the whole text. Want of memory may come before any other.
pub fn parse(alloc: Global, text: &[u8]) -> Result<Parsed, FFault>
    ensures ok { IfOk result (λ p. IsFormulaText text.now (as_formula p.formula)) }
    ensures grounds { IfOk result (λ p. AreGroundsOf text.now (map as_ground p.grounds.items)) }
    ensures short { IfOk result (λ p. AreShort p.grounds.items) }
    ensures named { IfOk result (λ p.
        HasPlacesBelow (length p.grounds.items) (as_formula p.formula)) }
    ensures small { IfOk result (λ p. numbers_needed (as_formula p.formula) < 2 ^ 32) }
    ensures fault { IfErr result (λ e. IfSome (as_formula_fault e) (IsFirstFormulaFault text.now)) }
{
    let lexemes = lexemes(alloc, text)?;
    parse_tokens(alloc, text, &lexemes)
}
