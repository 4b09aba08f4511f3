//! The steps that are due for a formula, by its outline.
ghost use Rattle.std.specs.Prelude.{◌≡◌, ◌<◌, ◌^◌, ◌++◌, List, false, map, length, get_or, IfOk, OnOk};
ghost use Rattle.fort_theory.specs.Cores as theory;
ghost use Rattle.fort_parts.specs.PartColumns.{columns_of};
ghost use Rattle.fort_outline.specs.Roots.{root_core, cores_of};
ghost use Rattle.fort_outline.specs.Outlines.{IsOutlineOf, parts_in};
ghost use Rattle.fort_certificate_theory.specs.Dues as definitions;
ghost use Rattle.fort_certificate_theory.specs.Dues.{counts_due, table_due, answer_due, closure_due, closures_due, parts_due};
ghost use Rattle.fort_findings.specs.FindingView.{as_which};
ghost use Rattle.fort_dues.specs.DueView.{as_due};

use fort_findings::Which;
use fort_outline::{Outline, Root, is_closure_asked};
use std::alloc::{AllocError, Global};

/// What a step is about: a closure of an index, or a part by its number.
#[derive(Clone, Copy)]
pub enum DueStep {
    Closure(Which, u32),
    Part(u32),
    Merge(u32),
    Counts(u32),
    Value(u32),
}

fn push_closure(
    which: Which,
    index: u32,
    roots: &[Root],
    dues: &mut Vec<DueStep>,
) -> Result<(), AllocError>
    ensures { OnOk result (map as_due dues.new.items ≡ map as_due dues.old.items
        ++ closure_due (cores_of roots.now) index (as_which which)) }
{
    if is_closure_asked(which, index, roots) {
        dues.push(DueStep::Closure(which, index))?;
    }
    Ok(())
}

/// The closures of all indices.
fn push_closures(indices: u32, roots: &[Root], dues: &mut Vec<DueStep>) -> Result<(), AllocError>
    requires { indices < 2 ^ 31 }
    ensures { OnOk result (map as_due dues.new.items ≡ map as_due dues.old.items
        ++ closures_due (cores_of roots.now) indices 1) }
{
    for i in 0..indices {
        push_closure(Which::Star, i + 1, roots, dues)?;
        push_closure(Which::Conv, i + 1, roots, dues)?;
    }
    Ok(())
}

fn push_counts(number: u32, root: &Root, dues: &mut Vec<DueStep>) -> Result<(), AllocError>
    ensures { OnOk result ((parts : List theory.Core)
        → map as_due dues.new.items ≡ map as_due dues.old.items
        ++ counts_due number (root_core parts root.now)) }
{
    match root {
        Root::Infinite(_, _) => {
            dues.push(DueStep::Counts(number))?;
            Ok(())
        }
        _ => Ok(()),
    }
}

/// The table of a part, and where it is merged its classes.
fn push_table(number: u32, is_merged: bool, dues: &mut Vec<DueStep>) -> Result<(), AllocError>
    ensures { OnOk result (map as_due dues.new.items ≡ map as_due dues.old.items
        ++ table_due (λ k. is_merged) number) }
{
    dues.push(DueStep::Part(number))?;
    if is_merged {
        dues.push(DueStep::Merge(number))?;
    }
    Ok(())
}

/// The table or the value of a part with these columns; the table of a negation is that of its operand.
fn push_answer(
    number: u32,
    root: &Root,
    columns: &[u32],
    is_merged: bool,
    dues: &mut Vec<DueStep>,
) -> Result<(), AllocError>
    ensures { OnOk result ((parts : List theory.Core)
        → columns.now ≡ columns_of (root_core parts root.now)
        → map as_due dues.new.items ≡ map as_due dues.old.items
        ++ answer_due (λ k. is_merged) number (root_core parts root.now)) }
{
    if columns.is_empty() {
        dues.push(DueStep::Value(number))?;
        return Ok(());
    }
    match root {
        Root::Not(_) => Ok(()),
        _ => push_table(number, is_merged, dues),
    }
}

/// The steps of a part with these columns.
fn push_part(
    number: u32,
    root: &Root,
    columns: &[u32],
    is_merged: bool,
    dues: &mut Vec<DueStep>,
) -> Result<(), AllocError>
    ensures { OnOk result ((parts : List theory.Core)
        → columns.now ≡ columns_of (root_core parts root.now)
        → map as_due dues.new.items ≡ map as_due dues.old.items
        ++ (counts_due number (root_core parts root.now)
        ++ answer_due (λ k. is_merged) number (root_core parts root.now))) }
{
    push_counts(number, root, dues)?;
    push_answer(number, root, columns, is_merged, dues)
}

/// The steps of all parts.
fn push_parts(outline: &Outline, merges: &[bool], dues: &mut Vec<DueStep>) -> Result<(), AllocError>
    requires outline { (f : theory.Core) × IsOutlineOf f outline.now }
    requires few { length outline.now.roots.items < 2 ^ 32 }
    requires merges { length merges.now ≡ length outline.now.roots.items }
    ensures { OnOk result (map as_due dues.new.items ≡ map as_due dues.old.items
        ++ parts_due (λ k. get_or merges.now k false) 0 (parts_in outline.now)) }
{
    for k in 0..outline.roots.len() {
        push_part(
            k as u32,
            &outline.roots[k],
            &outline.columns[k],
            merges[k],
            dues,
        )?;
    }
    Ok(())
}

/// The steps that are due for a formula with this outline, over a system of so many indices, where these parts' tables are merged.
pub fn steps_due(
    alloc: Global,
    indices: u32,
    outline: &Outline,
    merges: &[bool],
) -> Result<Vec<DueStep>, AllocError>
    requires indices { indices < 2 ^ 31 }
    requires outline { (f : theory.Core) × IsOutlineOf f outline.now }
    requires parts { length outline.now.roots.items < 2 ^ 32 }
    requires merges { length merges.now ≡ length outline.now.roots.items }
    ensures { IfOk result (λ all. map as_due all.items
        ≡ definitions.dues (λ k. get_or merges.now k false) indices (parts_in outline.now)) }
{
    let mut all = Vec::new(alloc);
    push_closures(indices, &outline.roots, &mut all)?;
    push_parts(outline, merges, &mut all)?;
    Ok(all)
}
