//! The columns of parts.
ghost use Rattle.std.specs.Prelude.{◌≡◌, ℕ, ◌↔◌, ◌<◌, List, ◌++◌, ◌==◌, not, filter, length, IfOk, OnOk, Contains};
ghost use Rattle.std.specs.List.Sorted.{IsStrictlyIncreasing};
ghost use Rattle.fort_theory.specs.Cores as theory;
ghost use Rattle.fort_parts.specs.PartColumns.{columns_of};
ghost use Rattle.fort_outline.specs.LeafView.{as_atom};
ghost use Rattle.fort_outline.specs.Roots.{root_core, cores_of, HasOperandsBelow, AreInOrder};
ghost use Rattle.fort_outline.specs.Outlines.{AreColumnsOf};

use crate::leaf::Leaf;
use crate::root::Root;
use std::alloc::{AllocError, Global};

/// The same numbers, each once and ascending.
fn put_in_order(numbers: &mut Vec<u32>) -> Result<(), AllocError>
    ensures rise { OnOk result (IsStrictlyIncreasing numbers.new.items) }
    ensures same { OnOk result ((n : ℕ) → Contains numbers.new.items n
        ↔ Contains numbers.old.items n) }
{
    numbers.sort()?;
    numbers.dedup();
    Ok(())
}

/// The numbers of both lists, each once and ascending.
fn of_both(alloc: Global, first: &[u32], second: &[u32]) -> Result<Vec<u32>, AllocError>
    ensures rise { IfOk result (λ ns. IsStrictlyIncreasing ns.items) }
    ensures same { IfOk result (λ ns. (n : ℕ) → Contains ns.items n
        ↔ Contains (first.now ++ second.now) n) }
{
    let mut numbers = Vec::from_slice(alloc, first)?;
    numbers.extend_from_slice(second)?;
    put_in_order(&mut numbers)?;
    Ok(numbers)
}

/// The numbers but for one.
fn without(alloc: Global, numbers: &[u32], number: u32) -> Result<Vec<u32>, AllocError>
    ensures { IfOk result (λ ns. ns.items ≡ filter (λ n. not (number == n)) numbers.now) }
{
    let mut others = Vec::from_slice(alloc, numbers)?;
    others.retain(|other| number != *other);
    Ok(others)
}

/// The columns of an atom.
fn leaf_columns(alloc: Global, leaf: &Leaf) -> Result<Vec<u32>, AllocError>
    ensures { IfOk result (λ ns. ns.items ≡ columns_of (theory.Leaf (as_atom leaf.now))) }
{
    match leaf {
        Leaf::Related(_, _, x, y) | Leaf::InContext(_, _, _, x, y) => of_both(alloc, &[*x], &[*y]),
        Leaf::Normal(_, x) | Leaf::IsTerm(x, _) => Ok(vec![in alloc; *x]?),
    }
}

/// The columns of a part with this root, by those of the parts before it.
fn root_columns(alloc: Global, root: &Root, before: &[Vec<u32>]) -> Result<Vec<u32>, AllocError>
    requires { HasOperandsBelow (length before.now) root.now }
    ensures { IfOk result (λ ns. (parts : List theory.Core) → AreColumnsOf parts before.now
        → ns.items ≡ columns_of (root_core parts root.now)) }
{
    match root {
        Root::True => Ok(Vec::new(alloc)),
        Root::Leaf(leaf) => leaf_columns(alloc, leaf),
        Root::Not(f) => Vec::from_slice(alloc, &before[*f]),
        Root::Binary(_, f, g) => of_both(alloc, &before[*f], &before[*g]),
        Root::Exists(n, f) | Root::Infinite(n, f) => without(alloc, &before[*f], *n),
    }
}

/// The columns of all parts: their free numbers, ascending.
pub(crate) fn all_columns(alloc: Global, roots: &[Root]) -> Result<Vec<Vec<u32>>, AllocError>
    requires { AreInOrder roots.now }
    ensures count { IfOk result (λ lists. length lists.items ≡ length roots.now) }
    ensures each { IfOk result (λ lists. AreColumnsOf (cores_of roots.now) lists.items) }
{
    let mut lists = Vec::with_capacity(alloc, roots.len())?;
    for k in 0..roots.len() {
        let columns = root_columns(alloc, &roots[k], &lists)?;
        lists.push(columns)?;
    }
    Ok(lists)
}
