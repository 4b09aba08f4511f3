//! Operations on tables of one column.
ghost use Rattle.std.specs.Prelude.{◌≡◌, ◌+◌, IfOk, IfErr, IsTrue};
ghost use Rattle.fort_tables.specs.Tables.{IsListed, listed_table};
ghost use Rattle.fort_tables.specs.Entries.{tuples_of};
ghost use Rattle.fort_tables.specs.OperationTruth.{TestsRelation, accepts};
ghost use Rattle.fort_explore.specs.Answer.{IfOver};
ghost use Rattle.fort_callers.specs.Differences.{HaveDifferenceLabels};

use fort_connectives::Op;
use fort_explore::{ExploreFault, explore};
use fort_labels::ByRule;
use fort_lockstep::Dta;
use fort_products::{Both, Operand};
use fort_rrn_algebra::negate;
use fort_table::Table;
use std::alloc::Global;

/// The table that accepts the terms that the first one accepts and the second one doesn't, with at
/// most so many states.
pub fn difference(alloc: Global, first: &Dta, second: &Dta, cap: u32) -> Result<Dta, ExploreFault>
    requires signature { second.now.signature ≡ first.now.signature }
    requires one { first.now.columns ≡ 1 }
    requires other { second.now.columns ≡ 1 }
    ensures accepted { IfOk result (λ t. TestsRelation first.now.signature 1
        (accepts (listed_table t)) (λ s. IsTrue (accepts (listed_table first.now) s)
        × (IsTrue (accepts (listed_table second.now) s) → ⊥))) }
    ensures listed { IfOk result IsListed }
    ensures over { IfErr result (λ e. IfOver e (λ tuples. HaveDifferenceLabels
        (listed_table first.now) (listed_table second.now) (cap + 1) (tuples_of tuples))) }
{
    let complement = negate(alloc, second)?;
    // Column 0 of either table is column 0 of the product.
    let one = Operand::Auto(first, &[0]);
    let other = Operand::Auto(&complement, &[0]);
    let both = Both::new(Op::And, one, other, 1);
    explore(alloc, first.signature(), &ByRule(&both), cap)
}
