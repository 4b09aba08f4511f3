//! Complements of tables.
ghost use Rattle.std.specs.Prelude.{◌≡◌, IfOk, IsTrue};
ghost use Rattle.fort_tables.specs.Tables.{IsListed, listed_table};
ghost use Rattle.fort_tables.specs.OperationTruth.{complemented, accepts, Complement, TestsRelation};
ghost use Rattle.fort_rrn_algebra.specs.Negations.{AreTurned};

use fort_lockstep::Dta;
use fort_table::Table;
use std::alloc::{AllocError, Global};

/// For each state whether its tuples have every column and the table doesn't accept them.
fn turned_finals(alloc: Global, table: &Dta) -> Result<Vec<bool>, AllocError>
    ensures { IfOk result (λ finals. AreTurned (listed_table table.now) finals.items) }
{
    let full = (1u32 << table.columns()) - 1;
    let mut finals = Vec::with_capacity(alloc, table.states() as usize)?;
    for q in 0..table.states() {
        finals.push(u32::from(table.presence(q)) == full && !table.is_final(q))?;
    }
    Ok(finals)
}

/// The complement: the table that accepts the tuples of terms that this one doesn't. Both share their entries, so that it costs
/// the states alone.
pub fn negate(alloc: Global, table: &Dta) -> Result<Dta, AllocError>
    ensures complement { IfOk result (λ t. listed_table t ≡ complemented (listed_table table.now)) }
    ensures accepted { IfOk result (λ t. TestsRelation table.now.signature table.now.columns
        (accepts (listed_table t))
        (Complement (λ s. IsTrue (accepts (listed_table table.now) s)))) }
    ensures listed { IfOk result IsListed }
{
    // its clause says that the table is lawful
    let _columns = table.columns();
    let finals = turned_finals(alloc, table)?;
    table.with_finals(finals)
}
