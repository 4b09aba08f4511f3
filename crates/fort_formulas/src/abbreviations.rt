//! Core formulas for the words that core formulas lack.

ghost use Rattle.std.specs.Prelude.{◌≡◌, ℕ, ◌+◌, ◌^◌, ◌<◌, IfOk};
ghost use Rattle.fort_theory.specs.Cores as theory;
ghost use Rattle.fort_theory.specs.Logic as logic;
ghost use Rattle.fort_logic.specs.Translation.{some, every, equal, infinitely_many, implies, at_most_one_step, normalises, joins, related, forks, property_core, terminates, all_terminate, commutes};
ghost use Rattle.fort_formulas.specs.CoreView.{as_core};
ghost use Rattle.fort_formulas.specs.FormulaView.{as_surface_rel, as_property};

use crate::columns::is_free;
use crate::core_formula::{Arm, Core};
use crate::surface::{Macro, SurfaceRel};
use fort_relations::Rel;
use std::alloc::{AllocError, Global};

pub fn not(alloc: Global, f: Core) -> Result<Core, AllocError>
    ensures { IfOk result (λ c. as_core c ≡ theory.Not (as_core f)) }
{
    Ok(Core::Not(Arm::new(alloc, f)?))
}

pub fn and(alloc: Global, f: Core, g: Core) -> Result<Core, AllocError>
    ensures { IfOk result (λ c. as_core c ≡ theory.Binary logic.And (as_core f) (as_core g)) }
{
    Ok(Core::And(Arm::new(alloc, f)?, Arm::new(alloc, g)?))
}

pub fn or(alloc: Global, f: Core, g: Core) -> Result<Core, AllocError>
    ensures { IfOk result (λ c. as_core c ≡ theory.Binary logic.Or (as_core f) (as_core g)) }
{
    Ok(Core::Or(Arm::new(alloc, f)?, Arm::new(alloc, g)?))
}

pub fn iff(alloc: Global, f: Core, g: Core) -> Result<Core, AllocError>
    ensures { IfOk result (λ c. as_core c ≡ theory.Binary logic.Iff (as_core f) (as_core g)) }
{
    Ok(Core::Iff(Arm::new(alloc, f)?, Arm::new(alloc, g)?))
}

pub fn implies(alloc: Global, f: Core, g: Core) -> Result<Core, AllocError>
    ensures { IfOk result (λ c. as_core c ≡ implies (as_core f) (as_core g)) }
{
    or(alloc, not(alloc, f)?, g)
}

/// A binder of a number that isn't free is left out.
pub fn some(alloc: Global, n: u32, f: Core) -> Result<Core, AllocError>
    ensures { IfOk result (λ c. as_core c ≡ some n (as_core f)) }
{
    if is_free(n, &f) {
        Ok(Core::Exists(n, Arm::new(alloc, f)?))
    } else {
        Ok(f)
    }
}

pub fn every(alloc: Global, n: u32, f: Core) -> Result<Core, AllocError>
    ensures { IfOk result (λ c. as_core c ≡ every n (as_core f)) }
{
    not(alloc, some(alloc, n, not(alloc, f)?)?)
}

/// Of a number that isn't free: the formula, and that there are infinitely many terms.
pub fn infinitely_many(alloc: Global, n: u32, f: Core) -> Result<Core, AllocError>
    ensures { IfOk result (λ c. as_core c ≡ infinitely_many n (as_core f)) }
{
    if is_free(n, &f) {
        Ok(Core::Infinite(n, Arm::new(alloc, f)?))
    } else {
        let terms = Arm::new(alloc, equal(n, n))?;
        and(alloc, f, Core::Infinite(n, terms))
    }
}

/// Equality has the index 1.
fn equal(x: u32, y: u32) -> Core
    ensures { as_core result ≡ equal x y }
{
    Core::Atom(Rel::Eq, 1, x, y)
}

fn at_most_one_step(alloc: Global, index: u32, x: u32, y: u32) -> Result<Core, AllocError>
    ensures { IfOk result (λ c. as_core c ≡ at_most_one_step index x y) }
{
    or(alloc, equal(x, y), Core::Atom(Rel::Step, index, x, y))
}

fn normalises(alloc: Global, index: u32, x: u32, y: u32) -> Result<Core, AllocError>
    ensures { IfOk result (λ c. as_core c ≡ normalises index x y) }
{
    and(
        alloc,
        Core::Atom(Rel::Star, index, x, y),
        Core::Nf(index, y),
    )
}

/// That these two have a common reduct, which has the number `n`.
pub fn joins(alloc: Global, index: u32, n: u32, x: u32, y: u32) -> Result<Core, AllocError>
    ensures { IfOk result (λ c. as_core c ≡ joins index n x y) }
{
    let both = and(
        alloc,
        Core::Atom(Rel::Star, index, x, n),
        Core::Atom(Rel::Star, index, y, n),
    )?;
    some(alloc, n, both)
}

/// That no infinitely many terms are reached from `x`, and none that is reached from itself by
/// steps. What is reached has the number `n`.
pub fn terminates(alloc: Global, index: u32, n: u32, x: u32) -> Result<Core, AllocError>
    ensures { IfOk result (λ c. as_core c ≡ terminates index n x) }
{
    let many = infinitely_many(alloc, n, Core::Atom(Rel::Star, index, x, n))?;
    let on_cycle = and(
        alloc,
        Core::Atom(Rel::Star, index, x, n),
        Core::Atom(Rel::Plus, index, n, n),
    )?;
    let few = not(alloc, many)?;
    and(alloc, few, not(alloc, some(alloc, n, on_cycle)?)?)
}

/// That every ground term terminates, with numbers from `n` on.
pub fn all_terminate(alloc: Global, index: u32, n: u32) -> Result<Core, AllocError>
    requires { n + 1 < 2 ^ 32 }
    ensures { IfOk result (λ c. as_core c ≡ all_terminate index n) }
{
    every(alloc, n, terminates(alloc, index, n + 1, n)?)
}

pub fn related(
    alloc: Global,
    rel: SurfaceRel,
    index: u32,
    x: u32,
    y: u32,
) -> Result<Core, AllocError>
    ensures { IfOk result (λ c. as_core c ≡ related (as_surface_rel rel) index x y) }
{
    match rel {
        SurfaceRel::Eq => Ok(equal(x, y)),
        SurfaceRel::Step => Ok(Core::Atom(Rel::Step, index, x, y)),
        SurfaceRel::Star => Ok(Core::Atom(Rel::Star, index, x, y)),
        SurfaceRel::Plus => Ok(Core::Atom(Rel::Plus, index, x, y)),
        SurfaceRel::Reflexive => at_most_one_step(alloc, index, x, y),
        SurfaceRel::Normal => normalises(alloc, index, x, y),
        SurfaceRel::Root => Ok(Core::Atom(Rel::Root, index, x, y)),
        SurfaceRel::Below => Ok(Core::Atom(Rel::Below, index, x, y)),
        SurfaceRel::Par => Ok(Core::Atom(Rel::Par, index, x, y)),
        SurfaceRel::Either => or(
            alloc,
            Core::Atom(Rel::Step, index, x, y),
            Core::Atom(Rel::Step, index, y, x),
        ),
        SurfaceRel::Conv => Ok(Core::Atom(Rel::Conv, index, x, y)),
    }
}

/// That some term, of the number `x`, is so related to both `y` and `z`.
fn forks(
    alloc: Global,
    rel: SurfaceRel,
    index: u32,
    x: u32,
    y: u32,
    z: u32,
) -> Result<Core, AllocError>
    ensures { IfOk result (λ c. as_core c ≡ forks (related (as_surface_rel rel) index) x y z) }
{
    let both = and(
        alloc,
        related(alloc, rel, index, x, y)?,
        related(alloc, rel, index, x, z)?,
    )?;
    some(alloc, x, both)
}

/// That each two values of `n` and `m` that meet the premise meet the conclusion.
fn each_two(
    alloc: Global,
    n: u32,
    m: u32,
    premise: Core,
    conclusion: Core,
) -> Result<Core, AllocError>
    ensures { IfOk result (λ c. as_core c
        ≡ every n (every m (implies (as_core premise) (as_core conclusion)))) }
{
    let implication = implies(alloc, premise, conclusion)?;
    every(alloc, n, every(alloc, m, implication)?)
}

/// That the rules of index 1 and those of index 2 commute, with numbers from `n` on.
pub fn commutes(alloc: Global, n: u32) -> Result<Core, AllocError>
    requires { n + 2 < 2 ^ 32 }
    ensures { IfOk result (λ c. as_core c ≡ commutes n) }
{
    let m = n + 1;
    let k = n + 2;
    let reducts = and(
        alloc,
        Core::Atom(Rel::Star, 1, k, n),
        Core::Atom(Rel::Star, 2, k, m),
    )?;
    let common = and(
        alloc,
        Core::Atom(Rel::Star, 2, n, k),
        Core::Atom(Rel::Star, 1, m, k),
    )?;
    let premise = some(alloc, k, reducts)?;
    each_two(alloc, n, m, premise, some(alloc, k, common)?)
}

/// The formula of a property, with numbers from `n` on.
pub fn property_core(alloc: Global, property: Macro, index: u32, n: u32) -> Result<Core, AllocError>
    requires { n + 2 < 2 ^ 32 }
    ensures { IfOk result (λ c. as_core c ≡ property_core (as_property property) index n) }
{
    let m = n + 1;
    let k = n + 2;
    match property {
        Macro::Cr => {
            let premise = forks(alloc, SurfaceRel::Star, index, k, n, m)?;
            each_two(alloc, n, m, premise, joins(alloc, index, k, n, m)?)
        }
        Macro::Wcr => {
            let premise = forks(alloc, SurfaceRel::Step, index, k, n, m)?;
            each_two(alloc, n, m, premise, joins(alloc, index, k, n, m)?)
        }
        Macro::Scr => {
            let premise = forks(alloc, SurfaceRel::Step, index, k, n, m)?;
            let both = and(
                alloc,
                at_most_one_step(alloc, index, n, k)?,
                Core::Atom(Rel::Star, index, m, k),
            )?;
            each_two(alloc, n, m, premise, some(alloc, k, both)?)
        }
        Macro::Wn => {
            let reduct = some(alloc, m, normalises(alloc, index, n, m)?)?;
            every(alloc, n, reduct)
        }
        Macro::Unr => {
            let premise = forks(alloc, SurfaceRel::Normal, index, k, n, m)?;
            each_two(alloc, n, m, premise, equal(n, m))
        }
        Macro::Unc => {
            let conversion = Core::Atom(Rel::Conv, index, n, m);
            let first = and(alloc, conversion, Core::Nf(index, n))?;
            let premise = and(alloc, first, Core::Nf(index, m))?;
            each_two(alloc, n, m, premise, equal(n, m))
        }
        Macro::Nfp => {
            let conversion = Core::Atom(Rel::Conv, index, n, m);
            let premise = and(alloc, conversion, Core::Nf(index, m))?;
            each_two(alloc, n, m, premise, Core::Atom(Rel::Star, index, n, m))
        }
    }
}
