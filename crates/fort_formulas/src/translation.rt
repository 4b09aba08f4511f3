//! The core formula of a formula.

ghost use Rattle.std.specs.Prelude.{◌≡◌, ℕ, ◌+◌, ◌^◌, ◌<◌, ◌≤◌, ◌↔◌, true, length, IsTrue, IfOk, IsErrOf};
ghost use Rattle.fort_logic.specs.FreeNames.{free_names};
ghost use Rattle.fort_logic.specs.Mentions.{HasTermsFor};
ghost use Rattle.fort_theory.specs.Parts.{is_free, IsWellFormed};
ghost use Rattle.fort_logic.specs.Translation.{core_in, core_of, IsFormulaTooWide};
ghost use Rattle.fort_logic.specs.KeepsTruth.{KeepsTruth};
ghost use Rattle.fort_formulas.specs.Atoms.{IsAtom};
ghost use Rattle.fort_formulas.specs.CoreView.{as_core};
ghost use Rattle.fort_formulas.specs.FormulaView.{as_formula};
ghost use Rattle.fort_formulas.specs.NumbersNeeded.{binder_numbers, numbers_needed};
ghost use Rattle.fort_formulas.specs.ScopeView.{as_scope};

use crate::abbreviations::{
    all_terminate, and, commutes, every, iff, implies, infinitely_many, not, or, property_core,
    some,
};
use crate::arguments::{joins_in, normal_in, related_in, related_in_context, terminates_in};
use crate::columns::is_too_wide;
use crate::core_formula::Core;
use crate::fault::CoreFault;
use crate::names::free_names;
use crate::numbers::fits;
use crate::scope::Scope;
use crate::surface::Formula;
use fort_terms::Term;
use std::alloc::{AllocError, Global};

/// The core formula, in which the free names have the first numbers. The terms are the ground terms
/// that are written in the formula, by their places.
pub fn to_core(alloc: Global, formula: &Formula, terms: &[Term]) -> Result<Core, CoreFault>
    requires { HasTermsFor (as_formula formula.now) terms.now }
    ensures ok { IfOk result (λ c. as_core c ≡ core_of terms.now (as_formula formula.now)) }
    ensures truth { IfOk result (λ c.
        KeepsTruth terms.now (as_formula formula.now) (as_core c)) }
    ensures well_formed { IfOk result (λ c. IsWellFormed (as_core c)) }
    ensures numbers { IfOk result (λ c. (n : ℕ) → is_free n (as_core c) ≡ true
        → n < length (free_names (as_formula formula.now))) }
    ensures few { IfOk result (λ c. numbers_needed (as_formula formula.now) ≤ 2 ^ 32) }
    ensures many { IsErrOf result CoreFault.TooManyNumbers
        → 2 ^ 32 < numbers_needed (as_formula formula.now) }
    ensures narrow { IfOk result (λ c. IsFormulaTooWide (as_formula formula.now) → ⊥) }
    ensures wide { IsErrOf result CoreFault.TooWide → IsFormulaTooWide (as_formula formula.now) }
{
    let core = numbered(alloc, formula, terms)?;
    if is_too_wide(alloc, &core)? {
        return Err(CoreFault::TooWide);
    }
    Ok(core)
}

/// Whether some part of the core formula has too many columns, whatever the terms are. It fails
/// for want of memory and with `CoreFault::TooManyNumbers`.
pub fn too_wide(alloc: Global, formula: &Formula) -> Result<bool, CoreFault>
    ensures exact { IfOk result (λ wide.
        IsTrue wide ↔ IsFormulaTooWide (as_formula formula.now)) }
    ensures few { IfOk result (λ wide. numbers_needed (as_formula formula.now) ≤ 2 ^ 32) }
    ensures many { IsErrOf result CoreFault.TooManyNumbers
        → 2 ^ 32 < numbers_needed (as_formula formula.now) }
    ensures not_refused { IsErrOf result CoreFault.TooWide → ⊥ }
{
    let core = numbered(alloc, formula, &[])?;
    Ok(is_too_wide(alloc, &core)?)
}

/// The core formula, however wide it is.
fn numbered(alloc: Global, formula: &Formula, terms: &[Term]) -> Result<Core, CoreFault>
    ensures ok { IfOk result (λ c. as_core c ≡ core_of terms.now (as_formula formula.now)) }
    ensures few { IfOk result (λ c. numbers_needed (as_formula formula.now) ≤ 2 ^ 32) }
    ensures many { IsErrOf result CoreFault.TooManyNumbers
        → 2 ^ 32 < numbers_needed (as_formula formula.now) }
    ensures not_refused { IsErrOf result CoreFault.TooWide → ⊥ }
{
    let names = free_names(alloc, formula)?;
    if !fits(formula, names.len()) {
        return Err(CoreFault::TooManyNumbers);
    }
    Ok(core_in(alloc, terms, &Scope::Free(&names), formula)?)
}

/// The core formula in a scope; a binder's number is how many names are in scope outside it.
fn core_in(
    alloc: Global,
    terms: &[Term],
    scope: &Scope,
    formula: &Formula,
) -> Result<Core, AllocError>
    requires { length (as_scope scope.now) + binder_numbers (as_formula formula.now) ≤ 2 ^ 32 }
    ensures { IfOk result (λ c. as_core c
        ≡ core_in terms.now (as_scope scope.now) (as_formula formula.now)) }
{
    match formula {
        Formula::Not(f) => not(alloc, core_in(alloc, terms, scope, f.as_formula())?),
        Formula::And(f, g) | Formula::Or(f, g) | Formula::Imp(f, g) | Formula::Iff(f, g) => {
            let f = core_in(alloc, terms, scope, f.as_formula())?;
            let g = core_in(alloc, terms, scope, g.as_formula())?;
            match formula {
                Formula::And(_, _) => and(alloc, f, g),
                Formula::Or(_, _) => or(alloc, f, g),
                Formula::Imp(_, _) => implies(alloc, f, g),
                _ => iff(alloc, f, g),
            }
        }
        Formula::Exists(x, f) => {
            let f = core_in(alloc, terms, &Scope::Bound(x, scope), f.as_formula())?;
            some(alloc, scope.depth(), f)
        }
        Formula::Forall(x, f) => {
            let f = core_in(alloc, terms, &Scope::Bound(x, scope), f.as_formula())?;
            every(alloc, scope.depth(), f)
        }
        Formula::Infinite(x, f) => {
            let f = core_in(alloc, terms, &Scope::Bound(x, scope), f.as_formula())?;
            infinitely_many(alloc, scope.depth(), f)
        }
        _ => atom_in(alloc, terms, scope, formula),
    }
}

/// The core formula of a formula without operands.
fn atom_in(
    alloc: Global,
    terms: &[Term],
    scope: &Scope,
    formula: &Formula,
) -> Result<Core, AllocError>
    requires atom { IsAtom (as_formula formula.now) }
    requires numbers { length (as_scope scope.now) + binder_numbers (as_formula formula.now)
        ≤ 2 ^ 32 }
    ensures { IfOk result (λ c. as_core c
        ≡ core_in terms.now (as_scope scope.now) (as_formula formula.now)) }
{
    match formula {
        Formula::True => Ok(Core::True),
        Formula::False => not(alloc, Core::True),
        Formula::Rel(rel, a, b, index) => related_in(alloc, terms, scope, *rel, *index, a, b),
        Formula::Rex(rex, holes, place, a, b) => {
            related_in_context(alloc, terms, scope, rex, (*holes, *place), a, b)
        }
        Formula::Nf(a, index) => normal_in(alloc, terms, scope, *index, a),
        Formula::Join(a, b, index) => joins_in(alloc, terms, scope, *index, a, b),
        Formula::Sn(Some(a), index) => terminates_in(alloc, terms, scope, *index, a),
        Formula::Sn(None, index) => all_terminate(alloc, *index, scope.depth()),
        Formula::Macro(property, index) => {
            property_core(alloc, *property, *index, scope.depth())
        }
        Formula::Com => commutes(alloc, scope.depth()),
        _ => unreachable!(),
    }
}
