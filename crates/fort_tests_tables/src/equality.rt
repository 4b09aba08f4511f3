//! Equality over one constant, as a product, with its complement, its exchange and a cylinder.
ghost use Rattle.std.specs.Prelude.{◌≡◌, IfOk};

use super::rules::IsFirst;
use fort_connectives::Op;
use fort_explore::{ExploreFault, explore};
use fort_findings::Count;
use fort_infinity::pure_counts;
use fort_labels::ByRule;
use fort_lockstep::Dta;
use fort_products::{Both, Operand};
use fort_projections::pure_states;
use fort_rrn_algebra::{negate, permute, widen};
use fort_table::Table;
use fort_terms::Signature;
use std::alloc::Global;
use std::test::Fail;

/// The table of the tuples of one term, of which it accepts the first constant alone.
fn first_table(alloc: Global, signature: &Signature) -> Result<Dta, ExploreFault>
    ensures columns { IfOk result (λ t. t.columns ≡ 1) }
    ensures signature { IfOk result (λ t. t.signature ≡ signature.now) }
{
    explore(alloc, signature, &ByRule(&IsFirst { signature }), 10)
}

/// The pairs of which both terms are the first constant, or none is.
fn joined(alloc: Global, signature: &Signature) -> Result<Dta, ExploreFault>
    ensures columns { IfOk result (λ t. t.columns ≡ 2) }
{
    let first = first_table(alloc, signature)?;
    let (one, other) = (Operand::Auto(&first, &[0]), Operand::Auto(&first, &[1]));
    let listed = Both::new(Op::Iff, one, other, 2).listed(Some(first.list()), Some(first.list()));
    explore(alloc, first.signature(), &ByRule(&listed), 3)
}

/// A table that was explored.
fn explored(table: Result<Dta, ExploreFault>) -> Result<Dta, Fail> {
    match table {
        Ok(table) => Ok(table),
        Err(_) => Err(Fail::new("no table")),
    }
}

/// Equality over one constant.
fn equality_table(alloc: Global) -> Result<Dta, Fail>
    ensures { IfOk result (λ t. t.columns ≡ 2) }
{
    let mut signature = Signature::empty(alloc);
    signature.add(b"a", 0)?;
    match joined(alloc, &signature) {
        Ok(table) => Ok(table),
        Err(_) => Err(Fail::new("no table")),
    }
}

/// Whether the states have these presences, and this one alone accepts.
fn has_states(table: &Dta, presences: &[u16], accepting: Option<u32>) -> bool {
    if table.states() as usize != presences.len() {
        return false;
    }
    for q in 0..table.states() {
        let accepts = accepting == Some(q);
        if table.presence(q) != presences[q as usize] || table.is_final(q) != accepts {
            return false;
        }
    }
    true
}

#[test]
fn complement_and_pure_states(rt: HostRuntime) -> Result<(), Fail> {
    // One state each for (-, a), (a, -) and (a, a).
    let table = equality_table(rt.alloc())?;
    assert!(rt; has_states(&table, &[2, 1, 3], Some(2)));
    let complement = negate(rt.alloc(), &table)?;
    assert!(rt; has_states(&complement, &[2, 1, 3], None));
    let again = negate(rt.alloc(), &complement)?;
    assert!(rt; has_states(&again, &[2, 1, 3], Some(2)));
    assert_eq!(rt;
        pure_states(rt.alloc(), &table, 0)?.as_slice(),
        [1].as_slice()
    );
    assert_eq!(rt;
        pure_states(rt.alloc(), &table, 1)?.as_slice(),
        [0].as_slice()
    );
    Ok(())
}

#[test]
fn counts_of_pure_states(rt: HostRuntime) -> Result<(), Fail> {
    // The one term in either column is the constant, of height 0.
    let table = equality_table(rt.alloc())?;
    let first = pure_states(rt.alloc(), &table, 0)?;
    let counts = pure_counts(rt.alloc(), &table, 0, &first)?;
    assert_eq!(rt; counts.as_slice(), [Count::Finite(0)].as_slice());
    let second = pure_states(rt.alloc(), &table, 1)?;
    let counts = pure_counts(rt.alloc(), &table, 1, &second)?;
    assert_eq!(rt; counts.as_slice(), [Count::Finite(0)].as_slice());
    Ok(())
}

#[test]
fn exchange_and_cylinder(rt: HostRuntime) -> Result<(), Fail> {
    let table = equality_table(rt.alloc())?;
    let exchange = explored(permute(rt.alloc(), &table, &[1, 0]))?;
    assert!(rt; has_states(&exchange, &[2, 1, 3], Some(2)));
    // The first and the third of three columns are equal.
    let cylinder = explored(widen(rt.alloc(), &table, &[0, 2], 3))?;
    assert!(rt; has_states(&cylinder, &[4, 2, 6, 1, 5, 3, 7], Some(6)));
    Ok(())
}
