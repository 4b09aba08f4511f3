//! A measure of tables: makes the table of the heights of tuples up to a cap, and looks targets of its entries up.
//! Standard input is one line of six to eight numbers: columns (1 to 3); the cap; the symbols beside a constant (1 for one of one argument,
//! 2 for one of two, 0 for both); n, where each n-th entry is kept (0 where no entry is gone over); how often the kept ones are
//! looked up; and a multiplier, which puts them in another order (1 for their own).
//! A seventh number says which heights are accepted (0 all, 1 the odd ones, 2 the cap alone), an eighth how often the table is reduced.
//! It prints how many were kept (how many states there are where n is 0), and the sum of the targets; where it is reduced, the states then.
#![tactic(auto)]

ghost use Rattle.std.specs.Prelude.{◌≡◌, ◌<◌, ◌≤◌, ◌^◌, ℕ, map, length, slice_index_or, [], IfOk};
ghost use Rattle.fort_measure.specs.Heights.{columns_for as columns_for_lem, further as further_lem, most as most_lem, is_accepted as is_accepted_lem};

mod sample;

use crate::sample::{look_up, mixed, sample};
use fort_explore::{ExploreFault, explore};
use fort_labels::{ByRule, LocalRule, Rows};
use fort_lockstep::Dta;
use fort_reduce::reduce;
use fort_table::Table;
use fort_terms::{AddFault, Signature};
use fort_tuple_symbols::Row;
use std::alloc::{AllocError, Global};
use std::io;
use std::process::ExitCode;

/// The heights of tuples over a signature.
#[derive(Drop)]
struct Heights<'a> {
    signature: &'a Signature,
    columns: u64,
    cap: u64,
    mode: u64,
}

/// Whether a height is accepted.
fn is_accepted(mode: u64, cap: u64, height: u64) -> bool
    ensures { result ≡ is_accepted_lem mode cap height }
{
    match mode {
        0 => true,
        1 => height % 2 == 1,
        _ => height == cap,
    }
}

/// One to three columns.
fn columns_for(columns: u64) -> usize
    ensures count { result ≡ columns_for_lem columns }
    ensures some { 0 < result }
    ensures narrow { result ≤ 16 }
{
    match columns {
        1 => 1,
        2 => 2,
        _ => 3,
    }
}

fn further(cap: u64, height: u64) -> u64
    ensures { result ≡ further_lem cap height }
{
    if height < cap { height + 1 } else { cap }
}

fn word(label: &[u64]) -> u64
    ensures { result ≡ slice_index_or label.now 1 0 }
{
    label.get(1).copied().unwrap_or(0)
}

/// The second word of a child's label, or 0.
fn kid_word(row: &Row, rows: &Rows, place: usize) -> u64
    requires { (j : ℕ) → j < length row.now.kids
        → slice_index_or row.now.kids j 0 < length rows.now.labels }
    ensures { result ≡ slice_index_or (slice_index_or
        (map (λ q. slice_index_or rows.now.labels q []) row.now.kids) place []) 1 0 }
{
    match row.kids().get(place) {
        Some(kid) => word(rows.label(*kid)),
        None => 0,
    }
}

fn most(cap: u64, row: &Row, rows: &Rows) -> u64
    requires { (j : ℕ) → j < length row.now.kids
        → slice_index_or row.now.kids j 0 < length rows.now.labels }
    ensures { result ≡ most_lem cap (map (λ q. slice_index_or rows.now.labels q []) row.now.kids) }
{
    further(cap, kid_word(row, rows, 0)).max(further(cap, kid_word(row, rows, 1)))
}

impl<'a> LocalRule for Heights<'a> {
    ghost use Rattle.std.specs.Prelude.{◌≡◌, ℕ, List, get_or, refl};
    ghost use Rattle.fort_measure.specs.Heights.{columns_for, height_rule, is_accepted};

    ghost rule = { λ s. height_rule s.signature.now (columns_for s.columns) s.cap };

    ghost word_count = { λ _. 2 };

    ghost accepting = { λ s ws. is_accepted s.mode s.cap (get_or ws 1 0) };

    ghost tells = { λ _ _ _. refl };

    ghost has_words = { λ _ _ _. refl };

    fn columns(&self) -> usize {
        columns_for(self.columns)
    }

    fn width(&self) -> usize {
        2
    }

    fn step(&self, row: &Row, rows: &Rows, out: &mut [u64]) {
        out[0] = row.presence() as u64;
        out[1] = most(self.cap, row, rows);
    }

    fn accepts(&self, words: &[u64]) -> bool {
        is_accepted(self.mode, self.cap, word(words))
    }
}

/// A constant a, with f of one argument, g of two, or both.
fn signature(alloc: Global, shape: u64) -> Result<Signature, AddFault> {
    let mut signature = Signature::empty(alloc);
    signature.add(b"a", 0)?;
    if shape != 2 {
        signature.add(b"f", 1)?;
    }
    if shape != 1 {
        signature.add(b"g", 2)?;
    }
    Ok(signature)
}

/// What is measured.
#[derive(Drop)]
struct Plan {
    columns: u64,
    cap: u64,
    shape: u64,
    every: u64,
    rounds: u64,
    multiplier: u64,
    mode: u64,
    reduces: u64,
}

/// How many entries were kept, and the sum of the targets that were looked up.
fn look_ups(alloc: Global, table: &Dta, plan: &Plan) -> Result<(usize, u64), AllocError> {
    let kept = sample(alloc, table, plan.every)?;
    let rows = mixed(alloc, kept.as_slice(), plan.multiplier)?;
    let mut sum = 0u64;
    for _ in 0..plan.rounds {
        sum = sum.wrapping_add(look_up(table, rows.as_slice()));
    }
    Ok((rows.len(), sum))
}

/// How many states there are when the table has been reduced so often, each time anew, and the sum of the classes' counts.
fn reductions(alloc: Global, table: &Dta, rounds: u64) -> Result<(usize, u64), AllocError> {
    let mut count = 0usize;
    let mut sum = 0u64;
    for _ in 0..rounds {
        let (reduced, classes) = reduce(alloc, table)?;
        count = reduced.states() as usize;
        sum = sum.wrapping_add(classes.len() as u64);
    }
    Ok((count, sum))
}

fn measured(alloc: Global, plan: &Plan) -> Result<(usize, u64), AddFault> {
    let signature = signature(alloc, plan.shape)?;
    let rule = Heights {
        signature: &signature,
        columns: plan.columns,
        cap: plan.cap,
        mode: plan.mode,
    };
    match explore(alloc, &signature, &ByRule(&rule), 20_000_000) {
        Ok(table) => {
            if plan.reduces > 0 {
                return Ok(reductions(alloc, &table, plan.reduces)?);
            }
            if plan.every == 0 {
                return Ok((table.states() as usize, 0));
            }
            Ok(look_ups(alloc, &table, plan)?)
        }
        Err(ExploreFault::Over(_)) => Ok((0, 0)),
        Err(ExploreFault::Memory) => Err(AddFault::Memory),
    }
}

fn main(rt: HostRuntime) -> io::Result<ExitCode> {
    let mut numbers = [0u64; 8];
    for line in rt.lines(rt.alloc()) {
        for (i, text) in line?.as_str().split(' ').enumerate() {
            if i < 8 {
                numbers[i] = text.parse::<u64>().unwrap_or(0);
            }
        }
    }
    let plan = Plan {
        columns: numbers[0],
        cap: numbers[1],
        shape: numbers[2],
        every: numbers[3],
        rounds: numbers[4],
        multiplier: numbers[5],
        mode: numbers[6],
        reduces: numbers[7],
    };
    match measured(rt.alloc(), &plan) {
        Ok((count, sum)) => println!(rt; "{count}, {sum}")?,
        Err(_) => println!(rt; "no table")?,
    }
    Ok(ExitCode::from(0))
}
