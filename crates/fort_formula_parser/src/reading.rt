//! Formulas that were read, and what is made of them.

ghost use Rattle.std.specs.Prelude.{◌≡◌, IfOk};
ghost use Rattle.fort_logic.specs.Formulas as theory;
ghost use Rattle.fort_formula_grammar.specs.FormulaGrammar.{quantified};
ghost use Rattle.fort_formulas.specs.FormulaView.{as_argument};
ghost use Rattle.fort_formula_parser.specs.Parsing.{IsBuilt, IsJoined, IsMade, argument_of, as_quantifier, connected};

use crate::cursor::Argument;
use fort_formulas::{Arg, Formula, Name, Operand};
use std::alloc::{AllocError, Global};

/// A formula that was read, and the place of the first token behind it.
#[derive(Drop)]
pub(crate) struct Reading {
    /// Want of memory doesn't end the reading: each fault of the tokens comes before it.
    pub made: Result<Formula, AllocError>,
    pub next: usize,
}

/// What stands between two formulas.
#[derive(Clone, Copy)]
pub(crate) enum Connective {
    And,
    Or,
    Imp,
    Iff,
}

/// What binds lists of variables.
#[derive(Clone, Copy)]
pub(crate) enum Quantifier {
    Exists,
    Forall,
}

fn name_of(alloc: Global, x: &[u8]) -> Result<Name, AllocError>
    ensures { IfOk result (λ name. name ≡ x.now) }
{
    Ok(Name::new(Vec::from_slice(alloc, x)?))
}

pub(crate) fn arg_of(alloc: Global, argument: Argument) -> Result<Arg, AllocError>
    ensures { IfOk result (λ arg. as_argument arg ≡ argument_of argument.entry) }
{
    match argument {
        Argument::Variable(x) => Ok(Arg::Var(name_of(alloc, x)?)),
        Argument::Ground(place) => Ok(Arg::Ground(place)),
    }
}

fn operand_of(alloc: Global, made: Result<Formula, AllocError>) -> Result<Operand, AllocError>
    ensures { (f : theory.Formula) → IsMade made f → IfOk result (λ operand. operand ≡ f) }
{
    Ok(Operand::new(alloc, made?)?)
}

fn negation(alloc: Global, operand: Result<Formula, AllocError>) -> Result<Formula, AllocError>
    ensures { (f : theory.Formula) → IsMade operand f → IsMade result (theory.Not f) }
{
    Ok(Formula::Not(operand_of(alloc, operand)?))
}

/// The negation, which ends where its operand does.
pub(crate) fn negated(alloc: Global, operand: Reading) -> Reading
    ensures { IsBuilt theory.Not operand result }
{
    let Reading { made, next } = operand;
    Reading {
        made: negation(alloc, made),
        next,
    }
}

fn connection(
    alloc: Global,
    connective: Connective,
    left: Result<Formula, AllocError>,
    right: Result<Formula, AllocError>,
) -> Result<Formula, AllocError>
    ensures { (f g : theory.Formula) → IsMade left f → IsMade right g →
        IsMade result (connected connective f g) }
{
    let left = operand_of(alloc, left)?;
    let right = operand_of(alloc, right)?;
    match connective {
        Connective::And => Ok(Formula::And(left, right)),
        Connective::Or => Ok(Formula::Or(left, right)),
        Connective::Imp => Ok(Formula::Imp(left, right)),
        Connective::Iff => Ok(Formula::Iff(left, right)),
    }
}

/// Both formulas joined, which end where the right one does.
pub(crate) fn joined(
    alloc: Global,
    connective: Connective,
    left: Reading,
    right: Reading,
) -> Reading
    ensures { IsJoined (connected connective) left right result }
{
    let Reading { made, next } = right;
    Reading {
        made: connection(alloc, connective, left.made, made),
        next,
    }
}

fn quantification(
    alloc: Global,
    quantifier: Quantifier,
    x: &[u8],
    body: Result<Formula, AllocError>,
) -> Result<Formula, AllocError>
    ensures { (f : theory.Formula) → IsMade body f →
        IsMade result (quantified (as_quantifier quantifier) x.now f) }
{
    let body = operand_of(alloc, body)?;
    let name = name_of(alloc, x)?;
    match quantifier {
        Quantifier::Exists => Ok(Formula::Exists(name, body)),
        Quantifier::Forall => Ok(Formula::Forall(name, body)),
    }
}

/// The body under a quantifier of this variable.
pub(crate) fn bound(alloc: Global, quantifier: Quantifier, x: &[u8], body: Reading) -> Reading
    ensures { IsBuilt (quantified (as_quantifier quantifier) x.now) body result }
{
    let Reading { made, next } = body;
    Reading {
        made: quantification(alloc, quantifier, x, made),
        next,
    }
}

fn infinity(
    alloc: Global,
    x: &[u8],
    body: Result<Formula, AllocError>,
) -> Result<Formula, AllocError>
    ensures { (f : theory.Formula) → IsMade body f → IsMade result (theory.Infinite x.now f) }
{
    let body = operand_of(alloc, body)?;
    Ok(Formula::Infinite(name_of(alloc, x)?, body))
}

/// That infinitely many values of this variable meet the body.
pub(crate) fn infinite(alloc: Global, x: &[u8], body: Reading) -> Reading
    ensures { IsBuilt (theory.Infinite x.now) body result }
{
    let Reading { made, next } = body;
    Reading {
        made: infinity(alloc, x, made),
        next,
    }
}
