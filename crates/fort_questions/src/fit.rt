//! Whether a formula speaks of nothing but what a system has.
ghost use Rattle.std.specs.Prelude.{map, IfOk, IfErr};
ghost use Rattle.fort_theory.specs.Signatures as theory;
ghost use Rattle.fort_answers.specs.FitAnswer.{FitsSystem, IsUnfit};
ghost use Rattle.fort_answers.specs.Said.{AreTermsOf};
ghost use Rattle.fort_formulas.specs.FormulaView.{as_formula};
ghost use Rattle.fort_formula_parser.specs.ParsedView.{as_ground, AreShort};
ghost use Rattle.fort_questions.specs.Accepted.{Beside};
ghost use Rattle.fort_questions.specs.Refusals.{Refuses, NamesTerm};

use crate::refusal::{Refusal, numbered};
use fort_ari::read_ground;
use fort_formula_parser::{Ground, Parsed};
use fort_formulas::{index_above, not_right_ground};
use fort_terms::{Signature, System, Term};
use std::alloc::Global;

/// The ground terms that stand in braces, or the line for the first braces in which none stands.
fn read_terms(
    alloc: Global,
    signature: &Signature,
    grounds: &[Ground],
) -> Result<Vec<Term>, Refusal>
    requires { AreShort grounds.now }
    ensures ok { IfOk result (λ terms.
        AreTermsOf signature.now (map as_ground grounds.now) terms.items) }
    ensures refused { IfErr result
        (Refuses (NamesTerm signature.now (map as_ground grounds.now))) }
{
    let mut terms = Vec::new(alloc);
    for ground in grounds {
        match read_ground(alloc, signature, &ground.text)? {
            Some(term) => terms.push(term)?,
            None => {
                let line = numbered(alloc, b"REFUSED formula term at ", ground.at)?;
                return Err(Refusal::Line(line));
            }
        }
    }
    Ok(terms)
}

/// The ground terms that are written in a formula's text, where they and the formula's indices are the system's, and the rules of each
/// index of an SN are right-ground.
pub fn terms_of(alloc: Global, parsed: &Parsed, system: &System) -> Result<Vec<Term>, Refusal>
    requires { AreShort parsed.now.grounds.items }
    ensures ok { IfOk result (λ terms. Beside parsed.now system.now (λ text p.
        FitsSystem text (as_formula parsed.now.formula) p terms.items)) }
    ensures refused { IfErr result (λ refusal. Beside parsed.now system.now (λ text p.
        Refuses (IsUnfit text (as_formula parsed.now.formula) p) refusal)) }
{
    if let Some(index) = index_above(&parsed.formula, system.number()) {
        let line = numbered(alloc, b"REFUSED formula index ", index as usize)?;
        return Err(Refusal::Line(line));
    }
    let terms = read_terms(alloc, system.signature(), &parsed.grounds)?;
    if let Some(index) = not_right_ground(&parsed.formula, system) {
        let line = numbered(alloc, b"REFUSED formula sn ", index as usize)?;
        return Err(Refusal::Line(line));
    }
    Ok(terms)
}
