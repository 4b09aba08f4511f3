//! Classes of small tables, all of them, against classes by marking pairs.
ghost use Rattle.std.specs.Prelude.{◌≡◌, ◌<◌, ◌≤◌, ◌-◌, ◌^◌};
ghost use Rattle.fort_tables.specs.Tables.{full_presence};

use super::plain_classes::{Exchange, exchanges_of, plain_classes};
use super::small_tables::{PlainTable, finals_from, table_from};
use fort_lockstep::Dta;
use fort_reduce::reduce;
use fort_terms::{AddFault, Signature};
use std::alloc::{AllocError, Global};
use std::test::Fail;

/// The arities of two symbols beside a constant, the second of which may be missing; columns; the presence of all of them; how many
/// states at most; and how many tables that are.
const CASES: [(u8, Option<u8>, usize, u16, usize, u32); 5] = [
    (0, Some(1), 1, 1, 5, 3_210),
    (1, Some(1), 1, 1, 3, 1_778),
    (2, None, 1, 1, 2, 34),
    (1, None, 1, 1, 6, 642),
    (1, None, 2, 3, 5, 1_166),
];

/// A constant a, with f and maybe g of at most two arguments.
fn signature(alloc: Global, f: u8, g: Option<u8>) -> Result<Signature, AddFault> {
    let mut signature = Signature::empty(alloc);
    signature.add(b"a", 0)?;
    signature.add(b"f", f.min(2))?;
    if let Some(arity) = g {
        signature.add(b"g", arity.min(2))?;
    }
    Ok(signature)
}

fn has_plain_classes(
    alloc: Global,
    table: &Dta,
    exchanges: &[Exchange],
) -> Result<bool, AllocError> {
    let (_merged, classes) = reduce(alloc, table)?;
    let plain = plain_classes(alloc, table, exchanges)?;
    Ok(classes.as_slice() == plain.as_slice())
}

/// How many tables differ in acceptance alone, or none where one of them has other classes.
fn compared(
    alloc: Global,
    table: &Dta,
    full: u16,
    given: &PlainTable,
) -> Result<Option<u32>, AllocError>
    requires { full ≡ full_presence table.now.columns }
{
    let exchanges = exchanges_of(alloc, given)?;
    for bits in 0..u32::MAX {
        match finals_from(alloc, table, full, bits)? {
            None => return Ok(Some(bits)),
            Some(finals) => {
                let accepting = table.with_finals(finals)?;
                if !has_plain_classes(alloc, &accepting, exchanges.as_slice())? {
                    return Ok(None);
                }
            }
        }
    }
    Ok(None)
}

/// How many tables have at most so many states, or none where one of them has other classes.
fn all_compared(
    alloc: Global,
    signature: &Signature,
    columns: usize,
    full: u16,
    most: usize,
) -> Result<Option<u32>, AllocError>
    requires some { 0 < columns }
    requires narrow { columns ≤ 16 }
    requires small { most ≤ 8 }
    requires full { full ≡ full_presence columns }
{
    let mut from = Vec::new(alloc);
    let mut count = 0u32;
    for _ in 0..u32::MAX {
        let mut given = PlainTable::none(alloc);
        match table_from(alloc, signature, columns, most, from.as_slice(), &mut given)? {
            None => {}
            Some(table) => match compared(alloc, &table, full, &given)? {
                None => return Ok(None),
                Some(more) => count = count.saturating_add(more),
            },
        }
        if given.targets.is_empty() {
            return Ok(Some(count));
        }
        from = given.next_targets(alloc)?;
    }
    Ok(None)
}

#[test]
fn small_tables_have_plain_classes(rt: HostRuntime) -> Result<(), Fail> {
    for (f, g, columns, full, most, count) in CASES {
        let signature = signature(rt.alloc(), f, g)?;
        let compared = all_compared(rt.alloc(), &signature, columns, full, most)?;
        assert_eq!(rt; compared, Some(count));
    }
    Ok(())
}
