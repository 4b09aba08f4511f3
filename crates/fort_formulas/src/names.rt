//! The free names of a formula.

ghost use Rattle.std.specs.Prelude.{◌≡◌, ℕ, ◌↔◌, List, [], ◌∷◌, ◌++◌, IsTrue, IfOk, OnOk, Contains};
ghost use Rattle.fort_logic.specs.FreeNames.{without, names_in, once, free_names};
ghost use Rattle.fort_formulas.specs.FormulaView.{as_argument, as_formula};

use crate::surface::{Arg, Formula, Name};
use std::alloc::{AllocError, Global};

/// The free variables, in the order of their first free occurrences. It fails for want of memory
/// alone.
pub fn free_names(alloc: Global, formula: &Formula) -> Result<Vec<Name>, AllocError>
    ensures { IfOk result (λ names. names.items ≡ free_names (as_formula formula.now)) }
{
    match formula {
        Formula::True
        | Formula::False
        | Formula::Sn(None, _)
        | Formula::Macro(_, _)
        | Formula::Com => Ok(Vec::new(alloc)),
        Formula::Nf(a, _) | Formula::Sn(Some(a), _) => variable_of(alloc, a),
        Formula::Rel(_, a, b, _) | Formula::Rex(_, _, _, a, b) | Formula::Join(a, b, _) => {
            let mut names = Vec::new(alloc);
            push_variable(alloc, &mut names, a)?;
            push_variable(alloc, &mut names, b)?;
            Ok(names)
        }
        Formula::Not(f) => free_names(alloc, f.as_formula()),
        Formula::And(f, g) | Formula::Or(f, g) | Formula::Imp(f, g) | Formula::Iff(f, g) => {
            let mut names = free_names(alloc, f.as_formula())?;
            let more = free_names(alloc, g.as_formula())?;
            push_all_new(&mut names, more)?;
            Ok(names)
        }
        Formula::Exists(x, f) | Formula::Forall(x, f) | Formula::Infinite(x, f) => {
            let mut names = free_names(alloc, f.as_formula())?;
            remove(&mut names, x);
            Ok(names)
        }
    }
}

/// The name of the variable that the argument is, if it is one.
fn variable_of(alloc: Global, arg: &Arg) -> Result<Vec<Name>, AllocError>
    ensures { IfOk result (λ names. names.items ≡ once (names_in (as_argument arg.now))) }
{
    let mut names = Vec::new(alloc);
    push_variable(alloc, &mut names, arg)?;
    Ok(names)
}

/// Puts the name of a variable behind the others, unless it is among them.
fn push_variable(alloc: Global, names: &mut Vec<Name>, arg: &Arg) -> Result<(), AllocError>
    ensures { OnOk result ((xs : List (List ℕ)) → names.old.items ≡ once xs
        → names.new.items ≡ once (xs ++ names_in (as_argument arg.now))) }
{
    match arg {
        Arg::Var(x) => push_new(names, x.copy(alloc)?),
        Arg::Ground(_) => Ok(()),
    }
}

/// Puts the name behind the others, unless it is among them.
fn push_new(names: &mut Vec<Name>, name: Name) -> Result<(), AllocError>
    ensures { OnOk result ((xs : List (List ℕ)) → names.old.items ≡ once xs
        → names.new.items ≡ once (xs ++ name ∷ [])) }
{
    if !is_among(names, &name) {
        names.push(name)?;
    }
    Ok(())
}

/// Puts each name behind the others, unless it is among them.
fn push_all_new(names: &mut Vec<Name>, more: Vec<Name>) -> Result<(), AllocError>
    ensures { OnOk result ((xs ys : List (List ℕ)) → names.old.items ≡ once xs
        → more.items ≡ once ys → names.new.items ≡ once (xs ++ ys)) }
{
    for name in more {
        push_new(names, name)?;
    }
    Ok(())
}

fn is_among(names: &[Name], name: &Name) -> bool
    ensures { IsTrue result ↔ Contains names.now name.now }
{
    names
        .iter()
        .any(|other| other.as_bytes() == name.as_bytes())
}

fn remove(names: &mut Vec<Name>, name: &Name)
    ensures { names.new.items ≡ without name.now names.old.items }
{
    names.retain(|other| other.as_bytes() != name.as_bytes());
}
