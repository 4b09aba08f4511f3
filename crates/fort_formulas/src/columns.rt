//! The columns of a core formula, and whether it is too wide.

ghost use Rattle.std.specs.Prelude.{◌≡◌, ℕ, ◌↔◌, ◌<◌, ◌⊎◌, IsTrue, IfOk, OnOk, Contains, length};
ghost use Rattle.std.specs.List.Sorted.{IsStrictlyIncreasing};
ghost use Rattle.fort_theory.specs.Parts.{is_free, AreColumns, IsTooWide};
ghost use Rattle.fort_theory.specs.Signatures.{most_columns};
ghost use Rattle.fort_formulas.specs.CoreView.{as_core};
ghost use Rattle.fort_formulas.specs.Surveys.{IsSurveyOf};

use crate::core_formula::Core;
use std::alloc::{AllocError, Global};

/// The most columns of a part.
const MOST_COLUMNS: usize = 16;

/// Whether this number is free in the formula.
pub fn is_free(n: u32, core: &Core) -> bool
    ensures { result ≡ is_free n (as_core core.now) }
{
    match core {
        Core::True => false,
        Core::Atom(_, _, x, y) | Core::Rel(_, _, _, x, y) => *x == n || *y == n,
        Core::Nf(_, x) | Core::Is(x, _) => *x == n,
        Core::Not(f) => is_free(n, f.as_core()),
        Core::And(f, g) | Core::Or(f, g) | Core::Iff(f, g) => {
            is_free(n, f.as_core()) || is_free(n, g.as_core())
        }
        Core::Exists(x, f) | Core::Infinite(x, f) => *x != n && is_free(n, f.as_core()),
    }
}

/// The columns of a formula: its free numbers, ascending. It fails for want of memory alone.
pub fn free(alloc: Global, core: &Core) -> Result<Vec<u32>, AllocError>
    ensures { IfOk result (λ ns. AreColumns (as_core core.now) ns.items) }
{
    Ok(walk(alloc, core)?.columns)
}

/// Whether some part has more columns than a part may have, or an expression too many root steps.
pub fn is_too_wide(alloc: Global, core: &Core) -> Result<bool, AllocError>
    ensures { IfOk result (λ wide. IsTrue wide ↔ IsTooWide (as_core core.now)) }
{
    Ok(walk(alloc, core)?.too_wide)
}

/// What one walk over a formula finds: its columns, and whether it is too wide.
#[derive(Drop)]
struct Survey {
    columns: Vec<u32>,
    too_wide: bool,
}

fn walk(alloc: Global, core: &Core) -> Result<Survey, AllocError>
    ensures { IfOk result (IsSurveyOf (as_core core.now)) }
{
    match core {
        Core::True => Ok(surveyed(Vec::new(alloc), false)),
        Core::Nf(_, x) | Core::Is(x, _) => Ok(surveyed(vec![in alloc; *x]?, false)),
        Core::Atom(_, _, x, y) => {
            let mut columns = vec![in alloc; *x, *y]?;
            put_in_order(&mut columns)?;
            Ok(surveyed(columns, false))
        }
        Core::Rel(rex, _, _, x, y) => {
            let mut columns = vec![in alloc; *x, *y]?;
            put_in_order(&mut columns)?;
            Ok(surveyed(columns, rex.has_many_roots()))
        }
        Core::Not(f) => walk(alloc, f.as_core()),
        Core::And(f, g) | Core::Or(f, g) | Core::Iff(f, g) => {
            let first = walk(alloc, f.as_core())?;
            let second = walk(alloc, g.as_core())?;
            let mut columns = first.columns;
            columns.extend_from_slice(&second.columns)?;
            put_in_order(&mut columns)?;
            Ok(surveyed(columns, first.too_wide | second.too_wide))
        }
        Core::Exists(n, f) | Core::Infinite(n, f) => {
            let Survey {
                mut columns,
                too_wide,
            } = walk(alloc, f.as_core())?;
            columns.retain(|column| *n != *column);
            Ok(surveyed(columns, too_wide))
        }
    }
}

/// What is found of a formula with these columns, which is too wide by something else or not.
fn surveyed(columns: Vec<u32>, wide_otherwise: bool) -> Survey
    ensures columns { result.columns ≡ columns }
    ensures wide { IsTrue result.too_wide
        ↔ (IsTrue wide_otherwise ⊎ (most_columns < length columns.items)) }
{
    let too_wide = wide_otherwise || columns.len() > MOST_COLUMNS;
    Survey { columns, too_wide }
}

/// The same numbers, each once and ascending.
fn put_in_order(numbers: &mut Vec<u32>) -> Result<(), AllocError>
    ensures rise { OnOk result (IsStrictlyIncreasing numbers.new.items) }
    ensures same { OnOk result ((n : ℕ) → Contains numbers.new.items n
        ↔ Contains numbers.old.items n) }
{
    numbers.sort()?;
    numbers.dedup();
    Ok(())
}
