//! Relation expressions by recursive descent, one function for each production.

ghost use Rattle.std.specs.Prelude.{◌≡◌, ◌+◌, ◌≤◌, length, IfOk, IfErr, MatchOption};
ghost use Rattle.fort_theory.specs.Expressions.{Expression};
ghost use Rattle.fort_formula_grammar.specs.Tokens as grammar;
ghost use Rattle.fort_formula_grammar.specs.ExpressionGrammar.{of_one, of_two, root_word, one_word, two_word, number_word, number_words, place_word, place_words};
ghost use Rattle.fort_formula_grammar.specs.Continuations.{HasNoWord};
ghost use Rattle.fort_formula_grammar.specs.StuckExpressions.{StuckExpression, StuckEnclosed};
ghost use Rattle.fort_relations.specs.HolesView.{as_hole_number, as_hole_place};
ghost use Rattle.fort_formula_parser.specs.Parsing.{rest_of, IsTokenAt, IsStuckAt};
ghost use Rattle.fort_formula_parser.specs.ExpressionParsing.{as_one, as_two, IsRexMade, IsExpressionAt, IsEnclosedAt};

use crate::cursor::{Indexed, Mark, index_at, is_next, variable_at};
use crate::expression_word::{Head, OneOperand, TwoOperands, head_of, holes_of, parse_place};
use crate::stuck::Stuck;
use crate::token::Lexeme;
use fort_relations::{Holes, Place, Rex, RexArm};
use std::alloc::{AllocError, Global};

/// An expression that was read, and the place of the first token behind it.
#[derive(Drop)]
pub(crate) struct RexReading {
    /// Want of memory doesn't end the reading: each fault of the tokens comes before it.
    pub made: Result<Rex, AllocError>,
    pub next: usize,
}

/// An expression in its brackets that was read, which holes it is for, and the place of the first
/// token behind it.
#[derive(Drop)]
pub(crate) struct EnclosedReading {
    pub made: Result<Rex, AllocError>,
    pub holes: Holes,
    pub place: Place,
    pub next: usize,
}

fn arm_of(alloc: Global, made: Result<Rex, AllocError>) -> Result<RexArm, AllocError>
    ensures { (e : Expression) → IsRexMade made e → IfOk result (λ arm. arm ≡ e) }
{
    Ok(RexArm::new(alloc, made?)?)
}

fn made_of_one(
    alloc: Global,
    op: OneOperand,
    operand: Result<Rex, AllocError>,
) -> Result<Rex, AllocError>
    ensures { (e : Expression) → IsRexMade operand e → IsRexMade result (of_one (as_one op) e) }
{
    let operand = arm_of(alloc, operand)?;
    match op {
        OneOperand::Inv => Ok(Rex::Inv(operand)),
        OneOperand::Clos => Ok(Rex::Clos(operand)),
    }
}

fn made_of_two(
    alloc: Global,
    op: TwoOperands,
    first: Result<Rex, AllocError>,
    second: Result<Rex, AllocError>,
) -> Result<Rex, AllocError>
    ensures { (a b : Expression) → IsRexMade first a → IsRexMade second b →
        IsRexMade result (of_two (as_two op) a b) }
{
    let first = arm_of(alloc, first)?;
    let second = arm_of(alloc, second)?;
    match op {
        TwoOperands::Union => Ok(Rex::Union(first, second)),
        TwoOperands::Comp => Ok(Rex::Comp(first, second)),
    }
}

/// The expression that begins at a place.
#[cycle(expression)]
fn expression(alloc: Global, lexemes: &[Lexeme], at: usize) -> Result<RexReading, Stuck>
    requires { at ≤ length lexemes.now }
    ensures ok { IfOk result (IsExpressionAt lexemes.now at) }
    ensures err { IfErr result (IsStuckAt StuckExpression lexemes.now at) }
{
    let Some(word) = variable_at(lexemes, at) else {
        return Err(Stuck(at));
    };
    match head_of(word) {
        Some(Head::Root) => Ok(root_steps(lexemes, at)),
        Some(Head::One(op)) => one_operand(alloc, lexemes, at, op),
        Some(Head::Two(op)) => two_operands(alloc, lexemes, at, op),
        None => Err(Stuck(at)),
    }
}

/// Root steps with their index, at whose word it is.
fn root_steps(lexemes: &[Lexeme], at: usize) -> RexReading
    requires { IsTokenAt lexemes.now at (grammar.Variable root_word) }
    ensures { IsExpressionAt lexemes.now at result }
{
    let Indexed { index, next } = index_at(lexemes, at + 1);
    RexReading {
        made: Ok(Rex::Root(index)),
        next,
    }
}

/// A word with one expression in brackets, at whose word it is.
#[cycle(expression)]
fn one_operand(
    alloc: Global,
    lexemes: &[Lexeme],
    at: usize,
    op: OneOperand,
) -> Result<RexReading, Stuck>
    requires { IsTokenAt lexemes.now at (grammar.Variable (one_word (as_one op))) }
    ensures ok { IfOk result (IsExpressionAt lexemes.now at) }
    ensures err { IfErr result (IsStuckAt StuckExpression lexemes.now at) }
{
    if !is_next(lexemes, at + 1, Mark::Open) {
        return Err(Stuck(at + 1));
    }
    let RexReading { made, next } = expression(alloc, lexemes, at + 2)?;
    if !is_next(lexemes, next, Mark::Close) {
        return Err(Stuck(next));
    }
    Ok(RexReading {
        made: made_of_one(alloc, op, made),
        next: next + 1,
    })
}

/// A word with two expressions in brackets, at whose word it is.
#[cycle(expression)]
fn two_operands(
    alloc: Global,
    lexemes: &[Lexeme],
    at: usize,
    op: TwoOperands,
) -> Result<RexReading, Stuck>
    requires { IsTokenAt lexemes.now at (grammar.Variable (two_word (as_two op))) }
    ensures ok { IfOk result (IsExpressionAt lexemes.now at) }
    ensures err { IfErr result (IsStuckAt StuckExpression lexemes.now at) }
{
    if !is_next(lexemes, at + 1, Mark::Open) {
        return Err(Stuck(at + 1));
    }
    let first = expression(alloc, lexemes, at + 2)?;
    if !is_next(lexemes, first.next, Mark::Comma) {
        return Err(Stuck(first.next));
    }
    let RexReading { made, next } = expression(alloc, lexemes, first.next + 1)?;
    if !is_next(lexemes, next, Mark::Close) {
        return Err(Stuck(next));
    }
    Ok(RexReading {
        made: made_of_two(alloc, op, first.made, made),
        next: next + 1,
    })
}

/// How many holes the word at a place says, where one does.
fn holes_at(lexemes: &[Lexeme], at: usize) -> Option<Holes>
    ensures { MatchOption result (HasNoWord number_words (rest_of lexemes.now at))
        (λ n. IsTokenAt lexemes.now at (grammar.Variable (number_word (as_hole_number n)))) }
{
    let word = variable_at(lexemes, at)?;
    holes_of(word)
}

/// Where the word at a place says that the holes are, where one does.
fn place_at(lexemes: &[Lexeme], at: usize) -> Option<Place>
    ensures { MatchOption result (HasNoWord place_words (rest_of lexemes.now at))
        (λ p. IsTokenAt lexemes.now at (grammar.Variable (place_word (as_hole_place p)))) }
{
    let word = variable_at(lexemes, at)?;
    parse_place(word)
}

/// `<< e , n , p >>`, at whose first token it is.
pub(crate) fn enclosed(
    alloc: Global,
    lexemes: &[Lexeme],
    at: usize,
) -> Result<EnclosedReading, Stuck>
    requires { IsTokenAt lexemes.now at grammar.Begin }
    ensures ok { IfOk result (IsEnclosedAt lexemes.now at) }
    ensures err { IfErr result (IsStuckAt StuckEnclosed lexemes.now at) }
{
    let RexReading { made, next } = expression(alloc, lexemes, at + 1)?;
    if !is_next(lexemes, next, Mark::Comma) {
        return Err(Stuck(next));
    }
    let Some(holes) = holes_at(lexemes, next + 1) else {
        return Err(Stuck(next + 1));
    };
    if !is_next(lexemes, next + 2, Mark::Comma) {
        return Err(Stuck(next + 2));
    }
    let Some(place) = place_at(lexemes, next + 3) else {
        return Err(Stuck(next + 3));
    };
    if !is_next(lexemes, next + 4, Mark::End) {
        return Err(Stuck(next + 4));
    }
    Ok(EnclosedReading {
        made,
        holes,
        place,
        next: next + 5,
    })
}
