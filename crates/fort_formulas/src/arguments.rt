//! Core formulas about arguments.

ghost use Rattle.std.specs.Prelude.{◌≡◌, ℕ, ◌+◌, ◌^◌, ◌≤◌, length, IfOk};
ghost use Rattle.fort_theory.specs.Cores as theory;
ghost use Rattle.fort_logic.specs.Translation.{joins, terminates, related, term_at, about, about_both};
ghost use Rattle.fort_relations.specs.HolesView.{as_hole_number, as_hole_place};
ghost use Rattle.fort_relations.specs.RexView.{as_expression};
ghost use Rattle.fort_formulas.specs.ArgumentNumbers.{number_of, bound};
ghost use Rattle.fort_formulas.specs.CoreView.{as_core};
ghost use Rattle.fort_formulas.specs.FormulaView.{as_surface_rel, as_argument};
ghost use Rattle.fort_formulas.specs.NumbersNeeded.{argument_numbers};
ghost use Rattle.fort_formulas.specs.ScopeView.{as_scope};

use crate::abbreviations::{and, joins, related, terminates};
use crate::core_formula::{Arm, Core};
use crate::numbers::argument_numbers;
use crate::scope::Scope;
use crate::surface::{Arg, SurfaceRel};
use fort_relations::{Holes, Place, Rex};
use fort_terms::{Sym, Term};
use std::alloc::{AllocError, Global};

/// That these two arguments are so related.
pub fn related_in(
    alloc: Global,
    terms: &[Term],
    scope: &Scope,
    rel: SurfaceRel,
    index: u32,
    a: &Arg,
    b: &Arg,
) -> Result<Core, AllocError>
    requires { length (as_scope scope.now)
        + (argument_numbers (as_argument a.now) + argument_numbers (as_argument b.now)) ≤ 2 ^ 32 }
    ensures { IfOk result (λ c. as_core c
        ≡ about_both terms.now (as_scope scope.now) (length (as_scope scope.now))
        (as_argument a.now) (as_argument b.now)
        (λ n x y. related (as_surface_rel rel) index x y)) }
{
    let x = number_of(scope, 0, a);
    let y = number_of(scope, argument_numbers(a), b);
    let inner = bind(alloc, terms, y, b, related(alloc, rel, index, x, y)?)?;
    bind(alloc, terms, x, a, inner)
}

/// That these two arguments are so related in a context of this kind.
pub fn related_in_context(
    alloc: Global,
    terms: &[Term],
    scope: &Scope,
    rex: &Rex,
    context: (Holes, Place),
    a: &Arg,
    b: &Arg,
) -> Result<Core, AllocError>
    requires { length (as_scope scope.now)
        + (argument_numbers (as_argument a.now) + argument_numbers (as_argument b.now)) ≤ 2 ^ 32 }
    ensures { IfOk result (λ c. as_core c
        ≡ about_both terms.now (as_scope scope.now) (length (as_scope scope.now))
        (as_argument a.now) (as_argument b.now)
        (λ n x y. theory.Leaf (theory.InContext (as_expression rex.now)
        (as_hole_number context.0) (as_hole_place context.1) x y))) }
{
    let x = number_of(scope, 0, a);
    let y = number_of(scope, argument_numbers(a), b);
    let atom = Core::Rel(rex.copy(alloc)?, context.0, context.1, x, y);
    let inner = bind(alloc, terms, y, b, atom)?;
    bind(alloc, terms, x, a, inner)
}

/// That this argument is a normal form.
pub fn normal_in(
    alloc: Global,
    terms: &[Term],
    scope: &Scope,
    index: u32,
    a: &Arg,
) -> Result<Core, AllocError>
    requires { length (as_scope scope.now) + argument_numbers (as_argument a.now) ≤ 2 ^ 32 }
    ensures { IfOk result (λ c. as_core c
        ≡ about terms.now (as_scope scope.now) (length (as_scope scope.now)) (as_argument a.now)
        (λ n x. theory.Leaf (theory.Normal index x))) }
{
    let x = number_of(scope, 0, a);
    bind(alloc, terms, x, a, Core::Nf(index, x))
}

/// That this argument terminates.
pub fn terminates_in(
    alloc: Global,
    terms: &[Term],
    scope: &Scope,
    index: u32,
    a: &Arg,
) -> Result<Core, AllocError>
    requires { length (as_scope scope.now) + (argument_numbers (as_argument a.now) + 1) ≤ 2 ^ 32 }
    ensures { IfOk result (λ c. as_core c
        ≡ about terms.now (as_scope scope.now) (length (as_scope scope.now)) (as_argument a.now)
        (λ n x. terminates index n x)) }
{
    let x = number_of(scope, 0, a);
    let n = scope.depth() + argument_numbers(a);
    bind(alloc, terms, x, a, terminates(alloc, index, n, x)?)
}

/// That these two arguments have a common reduct.
pub fn joins_in(
    alloc: Global,
    terms: &[Term],
    scope: &Scope,
    index: u32,
    a: &Arg,
    b: &Arg,
) -> Result<Core, AllocError>
    requires { length (as_scope scope.now)
        + (argument_numbers (as_argument a.now) + argument_numbers (as_argument b.now) + 1)
        ≤ 2 ^ 32 }
    ensures { IfOk result (λ c. as_core c
        ≡ about_both terms.now (as_scope scope.now) (length (as_scope scope.now))
        (as_argument a.now) (as_argument b.now) (λ n x y. joins index n x y)) }
{
    let x = number_of(scope, 0, a);
    let y = number_of(scope, argument_numbers(a), b);
    let n = scope.depth() + argument_numbers(a) + argument_numbers(b);
    let inner = bind(alloc, terms, y, b, joins(alloc, index, n, x, y)?)?;
    bind(alloc, terms, x, a, inner)
}

/// The number of an argument, where this many numbers besides those of the scope are in use.
fn number_of(scope: &Scope, used: u32, arg: &Arg) -> u32
    requires { length (as_scope scope.now) + (used + argument_numbers (as_argument arg.now))
        ≤ 2 ^ 32 }
    ensures { result
        ≡ number_of (as_scope scope.now) (length (as_scope scope.now) + used)
        (as_argument arg.now) }
{
    match arg {
        Arg::Var(x) => scope.number(x),
        Arg::Ground(_) => scope.depth() + used,
    }
}

/// The formula below the binder of an argument that is a ground term; else the formula itself.
fn bind(
    alloc: Global,
    terms: &[Term],
    number: u32,
    arg: &Arg,
    core: Core,
) -> Result<Core, AllocError>
    ensures { IfOk result (λ c. as_core c
        ≡ bound terms.now number (as_argument arg.now) (as_core core)) }
{
    match arg {
        Arg::Var(_) => Ok(core),
        Arg::Ground(place) => {
            let is = Core::Is(number, term_at(alloc, terms, *place)?);
            let both = and(alloc, is, core)?;
            Ok(Core::Exists(number, Arm::new(alloc, both)?))
        }
    }
}

/// The term with this place; where there is none, a constant.
fn term_at(alloc: Global, terms: &[Term], place: u32) -> Result<Term, AllocError>
    ensures { IfOk result (λ term. term ≡ term_at terms.now place) }
{
    match terms.get(place as usize) {
        Some(term) => term.copy(alloc),
        None => Ok(Term {
            sym: Sym(0),
            kids: Vec::new(alloc),
        }),
    }
}
