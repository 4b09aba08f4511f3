//! Cylinders and exchanges of tables.
ghost use Rattle.std.specs.Prelude.{◌≡◌, ◌<◌, ◌≤◌, ℕ, take, true, length, IfOk, IfErr, IsTrue};
ghost use Rattle.fort_tables.specs.Entries.{tuples_of};
ghost use Rattle.fort_tables.specs.Tables.{IsListed, listed_table};
ghost use Rattle.fort_tables.specs.Labels.{IsTableOf, HaveLabels};
ghost use Rattle.fort_tables.specs.LabelRules.{label_of};
ghost use Rattle.fort_tables.specs.Products.{OfTable, OfTruth, IsOperand, product_rule, product_accepts};
ghost use Rattle.fort_theory.specs.Logic as logic;
ghost use Rattle.fort_tables.specs.OperationTruth.{TestsRelation, Cylinder, Exchange, IsOrder, accepts};
ghost use Rattle.fort_explore.specs.Answer.{IfOver};

use fort_connectives::Op;
use fort_explore::{ExploreFault, explore};
use fort_labels::ByRule;
use fort_lockstep::Dta;
use fort_products::{Both, Operand};
use fort_table::Table;
use std::alloc::Global;

/// The table over `total` columns that accepts a tuple of terms where the old one accepts its columns at these places. It is over
/// where it has more states than a table can number.
pub fn widen<T: Table>(
    alloc: Global,
    old: &T,
    places: &[usize],
    total: usize,
) -> Result<Dta, ExploreFault>
    requires some { 0 < total }
    requires narrow { total ≤ 16 }
    requires places { IsOperand (T.table old.now).signature total
        (OfTable (T.table old.now) places.now) }
    ensures table { IfOk result (λ t. IsTableOf (T.table old.now).signature total
        (label_of (product_rule total (OfTable (T.table old.now) places.now) (OfTruth true)))
        (product_accepts logic.And (OfTable (T.table old.now) places.now) (OfTruth true))
        (listed_table t)) }
    ensures accepted { IfOk result (λ t. TestsRelation (T.table old.now).signature total
        (accepts (listed_table t)) (Cylinder places.now
        (λ s. IsTrue (accepts (T.table old.now) s)))) }
    ensures listed { IfOk result IsListed }
    ensures over { IfErr result (λ e. IfOver e (λ tuples. HaveLabels (T.table old.now).signature
        total (label_of (product_rule total (OfTable (T.table old.now) places.now)
        (OfTruth true))) 4294967296 (tuples_of tuples))) }
{
    // its clause says that the table is lawful
    let _states = old.states();
    let both = Both::new(
        Op::And,
        Operand::Auto(old, places),
        Operand::Truth(true),
        total,
    );
    explore(alloc, old.signature(), &ByRule(&both), u32::MAX)
}

/// The order that undoes an order.
fn undone(order: &[usize]) -> [usize; 16]
    requires few { length order.now ≤ 16 }
    requires order { (columns : ℕ) × IsOrder columns order.now }
    ensures { (columns : ℕ) (o : IsOrder columns order.now) → take columns result ≡ o.back }
{
    let mut places = [0; 16];
    for k in 0..order.len() {
        places[order[k]] = k;
    }
    places
}

/// The table that accepts the tuples of the old one, taken in this order: column k of a tuple is column `order[k]` of the old one.
/// Promised to callers: the program itself doesn't call it.
pub fn permute<T: Table>(alloc: Global, old: &T, order: &[usize]) -> Result<Dta, ExploreFault>
    requires { IsOrder (T.table old.now).columns order.now }
    ensures table { (o : IsOrder (T.table old.now).columns order.now) → IfOk result (λ t. IsTableOf
        (T.table old.now).signature (T.table old.now).columns
        (label_of (product_rule (T.table old.now).columns (OfTable (T.table old.now) o.back)
        (OfTruth true)))
        (product_accepts logic.And (OfTable (T.table old.now) o.back) (OfTruth true))
        (listed_table t)) }
    ensures accepted { IfOk result (λ t. TestsRelation (T.table old.now).signature
        (T.table old.now).columns (accepts (listed_table t)) (Exchange
        (T.table old.now).signature (T.table old.now).columns order.now
        (λ s. IsTrue (accepts (T.table old.now) s)))) }
    ensures listed { IfOk result IsListed }
    ensures over { (o : IsOrder (T.table old.now).columns order.now) → IfErr result (λ e. IfOver e
        (λ tuples. HaveLabels (T.table old.now).signature (T.table old.now).columns
        (label_of (product_rule (T.table old.now).columns (OfTable (T.table old.now) o.back)
        (OfTruth true))) 4294967296 (tuples_of tuples))) }
{
    let columns = old.columns();
    let places = undone(order);
    widen(alloc, old, &places[..columns], columns)
}
