//! The least tuple of a table, and the text of its term.
ghost use Rattle.std.specs.Prelude.{◌≡◌, ◌<◌, IfOk};
ghost use Rattle.fort_tables.specs.Tables.{listed_table};
ghost use Rattle.fort_witness.specs.Answers.{IsWitness};

use super::rules::Tower;
use fort_explore::explore;
use fort_labels::ByRule;
use fort_lockstep::Dta;
use fort_table::{Dag, Table};
use fort_terms::Signature;
use fort_witness::{least, write_term};
use std::alloc::{AllocError, Global};
use std::test::Fail;

/// The term in the first column of a least tuple.
fn text_of(alloc: Global, table: &Dta, dag: &Dag) -> Result<Vec<u8>, AllocError>
    requires witness { IsWitness (listed_table table.now) dag.now }
    requires column { 0 < table.now.columns }
{
    let mut out = Vec::new(alloc);
    // fetches the law that a table has fewer than 2^32 states
    let _states = table.states();
    let last = dag.len() - 1;
    write_term(alloc, dag, last as u32, 0, table.signature(), &mut out)?;
    Ok(out)
}

/// The table that accepts the terms of this height, and of greater ones.
fn tower_table(alloc: Global, top: u64) -> Result<Dta, Fail>
    ensures { IfOk result (λ t. t.columns ≡ 1) }
{
    let mut signature = Signature::empty(alloc);
    signature.add(b"a", 0)?;
    signature.add(b"f", 1)?;
    let rule = Tower {
        signature: &signature,
        top,
    };
    match explore(alloc, &signature, &ByRule(&rule), 20_000) {
        Ok(table) => Ok(table),
        Err(_) => Err(Fail::new("no table")),
    }
}

/// The least term of this height over a constant a and a symbol f of one argument.
fn tower(alloc: Global, top: u64) -> Result<Vec<u8>, Fail> {
    let table = tower_table(alloc, top)?;
    match least(alloc, &table)? {
        Some(dag) => Ok(text_of(alloc, &table, &dag)?),
        None => Ok(Vec::new(alloc)),
    }
}

#[test]
fn a_term_of_great_height(rt: HostRuntime) -> Result<(), Fail> {
    let text = tower(rt.alloc(), 10_000)?;
    assert_eq!(rt; text.len(), 40_001);
    assert_eq!(rt; &text[..6], b"(f (f ".as_slice());
    assert_eq!(rt; &text[29_994..30_005], b"(f (f a))))".as_slice());
    Ok(())
}
