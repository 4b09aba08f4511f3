//! Formulas without operands.

ghost use Rattle.std.specs.Prelude.{◌≡◌, ◌+◌, ◌<◌, Some, length, IfOk, IfErr};
ghost use Rattle.fort_formula_grammar.specs.Tokens as grammar;
ghost use Rattle.fort_formula_grammar.specs.FormulaGrammar.{IsUnary};
ghost use Rattle.fort_logic.specs.Formulas as theory;
ghost use Rattle.fort_formulas.specs.FormulaView.{as_property, as_surface_rel};
ghost use Rattle.fort_formula_grammar.specs.Stuck.{StuckUnary};
ghost use Rattle.fort_theory.specs.Expressions.{Expression};
ghost use Rattle.fort_relations.specs.HolesView.{as_hole_number, as_hole_place};
ghost use Rattle.fort_formula_parser.specs.ExpressionParsing.{IsRexMade};
ghost use Rattle.fort_formula_parser.specs.Parsing.{AreFewGrounds, IsTokenAt, IsParsed, IsStuckAt, IsMade, IsArgumentAt, argument_of};

use crate::cursor::{
    Argument, Indexed, Mark, Relation, argument_at, index_at, is_next, relation_at,
};
use crate::expression::{EnclosedReading, enclosed};
use crate::reading::{Reading, arg_of};
use crate::stuck::Stuck;
use crate::token::Lexeme;
use fort_formulas::{Formula, Macro, SurfaceRel};
use std::alloc::{AllocError, Global};

/// A property with its index, at whose first token it is.
pub(crate) fn property_formula(lexemes: &[Lexeme], at: usize, property: Macro) -> Reading
    requires { IsTokenAt lexemes.now at (grammar.Has (as_property property)) }
    ensures { IsParsed IsUnary lexemes.now at result }
{
    let Indexed { index, next } = index_at(lexemes, at + 1);
    Reading {
        made: Ok(Formula::Macro(property, index)),
        next,
    }
}

fn nf(alloc: Global, x: Argument, index: u32) -> Result<Formula, AllocError>
    ensures { IsMade result (theory.Nf (argument_of x.entry) index) }
{
    Ok(Formula::Nf(arg_of(alloc, x)?, index))
}

/// `NF ( x )`, at whose first token it is.
pub(crate) fn normal_form(alloc: Global, lexemes: &[Lexeme], at: usize) -> Result<Reading, Stuck>
    requires here { IsTokenAt lexemes.now at grammar.Nf }
    requires few { AreFewGrounds lexemes.now }
    ensures ok { IfOk result (IsParsed IsUnary lexemes.now at) }
    ensures err { IfErr result (IsStuckAt StuckUnary lexemes.now at) }
{
    let Indexed { index, next } = index_at(lexemes, at + 1);
    if !is_next(lexemes, next, Mark::Open) {
        return Err(Stuck(next));
    }
    let Some(x) = argument_at(lexemes, next + 1) else {
        return Err(Stuck(next + 1));
    };
    if !is_next(lexemes, next + 2, Mark::Close) {
        return Err(Stuck(next + 2));
    }
    Ok(Reading {
        made: nf(alloc, x, index),
        next: next + 3,
    })
}

fn sn(alloc: Global, x: Argument, index: u32) -> Result<Formula, AllocError>
    ensures { IsMade result (theory.Sn (Some (argument_of x.entry)) index) }
{
    Ok(Formula::Sn(Some(arg_of(alloc, x)?), index))
}

/// `SN` or `SN ( x )`, at whose first token it is.
pub(crate) fn terminating(alloc: Global, lexemes: &[Lexeme], at: usize) -> Result<Reading, Stuck>
    requires here { IsTokenAt lexemes.now at grammar.Sn }
    requires few { AreFewGrounds lexemes.now }
    ensures ok { IfOk result (IsParsed IsUnary lexemes.now at) }
    ensures err { IfErr result (IsStuckAt StuckUnary lexemes.now at) }
{
    let Indexed { index, next } = index_at(lexemes, at + 1);
    if !is_next(lexemes, next, Mark::Open) {
        return Ok(Reading {
            made: Ok(Formula::Sn(None, index)),
            next,
        });
    }
    let Some(x) = argument_at(lexemes, next + 1) else {
        return Err(Stuck(next + 1));
    };
    if !is_next(lexemes, next + 2, Mark::Close) {
        return Err(Stuck(next + 2));
    }
    Ok(Reading {
        made: sn(alloc, x, index),
        next: next + 3,
    })
}

fn join(alloc: Global, x: Argument, y: Argument, index: u32) -> Result<Formula, AllocError>
    ensures { IsMade result (theory.Join (argument_of x.entry) (argument_of y.entry) index) }
{
    Ok(Formula::Join(arg_of(alloc, x)?, arg_of(alloc, y)?, index))
}

/// `JOIN ( x , y )`, at whose first token it is.
pub(crate) fn joinable(alloc: Global, lexemes: &[Lexeme], at: usize) -> Result<Reading, Stuck>
    requires here { IsTokenAt lexemes.now at grammar.Join }
    requires few { AreFewGrounds lexemes.now }
    ensures ok { IfOk result (IsParsed IsUnary lexemes.now at) }
    ensures err { IfErr result (IsStuckAt StuckUnary lexemes.now at) }
{
    let Indexed { index, next } = index_at(lexemes, at + 1);
    if !is_next(lexemes, next, Mark::Open) {
        return Err(Stuck(next));
    }
    let Some(x) = argument_at(lexemes, next + 1) else {
        return Err(Stuck(next + 1));
    };
    if !is_next(lexemes, next + 2, Mark::Comma) {
        return Err(Stuck(next + 2));
    }
    let Some(y) = argument_at(lexemes, next + 3) else {
        return Err(Stuck(next + 3));
    };
    if !is_next(lexemes, next + 4, Mark::Close) {
        return Err(Stuck(next + 4));
    }
    Ok(Reading {
        made: join(alloc, x, y, index),
        next: next + 5,
    })
}

fn related(
    alloc: Global,
    rel: SurfaceRel,
    x: Argument,
    y: Argument,
    index: u32,
) -> Result<Formula, AllocError>
    ensures { IsMade result (theory.Related (as_surface_rel rel)
        (argument_of x.entry) (argument_of y.entry) index) }
{
    Ok(Formula::Rel(rel, arg_of(alloc, x)?, arg_of(alloc, y)?, index))
}

fn in_context(
    alloc: Global,
    found: EnclosedReading,
    x: Argument,
    y: Argument,
) -> Result<Formula, AllocError>
    ensures { (e : Expression) → IsRexMade found.made e → IsMade result (theory.InContext e
        (as_hole_number found.holes) (as_hole_place found.place)
        (argument_of x.entry) (argument_of y.entry)) }
{
    let rex = found.made?;
    let (x, y) = (arg_of(alloc, x)?, arg_of(alloc, y)?);
    Ok(Formula::Rex(rex, found.holes, found.place, x, y))
}

/// `x << e , n , p >> y`, at whose first argument it is.
fn compared_in_context(
    alloc: Global,
    lexemes: &[Lexeme],
    at: usize,
    x: Argument,
) -> Result<Reading, Stuck>
    requires here { IsArgumentAt lexemes.now at (argument_of x) }
    requires begins { IsTokenAt lexemes.now (at + 1) grammar.Begin }
    requires few { AreFewGrounds lexemes.now }
    ensures ok { IfOk result (IsParsed IsUnary lexemes.now at) }
    ensures err { IfErr result (IsStuckAt StuckUnary lexemes.now at) }
{
    let found = enclosed(alloc, lexemes, at + 1)?;
    let next = found.next;
    let Some(y) = argument_at(lexemes, next) else {
        return Err(Stuck(next));
    };
    Ok(Reading {
        made: in_context(alloc, found, x, y),
        next: next + 1,
    })
}

/// `x -> y` with any relation, at whose first argument it is.
pub(crate) fn compared(
    alloc: Global,
    lexemes: &[Lexeme],
    at: usize,
    x: Argument,
) -> Result<Reading, Stuck>
    requires here { IsArgumentAt lexemes.now at (argument_of x) }
    requires few { AreFewGrounds lexemes.now }
    ensures ok { IfOk result (IsParsed IsUnary lexemes.now at) }
    ensures err { IfErr result (IsStuckAt StuckUnary lexemes.now at) }
{
    if is_next(lexemes, at + 1, Mark::Begin) {
        return compared_in_context(alloc, lexemes, at, x);
    }
    let Some(Relation { rel, index, next }) = relation_at(lexemes, at + 1) else {
        return Err(Stuck(at + 1));
    };
    let Some(y) = argument_at(lexemes, next) else {
        return Err(Stuck(next));
    };
    Ok(Reading {
        made: related(alloc, rel, x, y, index),
        next: next + 1,
    })
}
