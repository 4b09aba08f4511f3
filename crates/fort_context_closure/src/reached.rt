//! What a closure adds to the bits of patterns at a node.
ghost use Rattle.std.specs.Prelude.{◌≡◌, ℕ, ◌+◌, ◌*◌, ◌<◌, ◌≤◌, ◌^◌, ◌||◌, suc, length, get_or, slice_index_or, Contains, IfOk};
ghost use Rattle.std.specs.List.{list_any};
ghost use Rattle.fort_tables.specs.BitRows.{words_for};
ghost use Rattle.fort_tuple_symbols.specs.Columns.{as_column};
ghost use Rattle.fort_label_bits.specs.RowBits.{bit_of, labels_at};
ghost use Rattle.fort_context_closure.specs.ReachRows.{HasRows, rule_adds};
ghost use Rattle.fort_label_bits.specs.RulePlaces.{no_rule};
ghost use Rattle.fort_context_closure.specs.RuleRootPlaces.{AreRuleRoots, start_adds, end_adds, starts_at, ends_at};
ghost use Rattle.fort_label_bits.specs.declared.rule_places.RulePlaces as places;

use crate::reach::Reach;
use fort_label_bits::{
    Numbered, Rooted, RulePlaces, add_row, is_inside, pattern_at, row_at, rule_at,
};
use fort_labels::Rows;
use fort_terms::Sym;
use fort_tuple_symbols::Row;
use std::alloc::{AllocError, Global};

/// The roots of the two arguments.
#[derive(Clone, Copy)]
pub(crate) struct RootPair {
    pub first: Option<Sym>,
    pub second: Option<Sym>,
}

/// The rules by the roots of their sides.
#[derive(Drop)]
pub(crate) struct RuleRoots {
    pub lefts: Rooted,
    pub rights: Rooted,
}

/// The rules under the roots of their sides.
pub(crate) fn root_rules(
    alloc: Global,
    rules: &[RulePlaces],
    lefts: &[Numbered],
    rights: &[Numbered],
) -> Result<RuleRoots, AllocError>
    requires { (r : places.RulePlaces) → Contains rules.now r
        → (r.left < length lefts.now) × (r.right < length rights.now) }
    ensures { IfOk result (AreRuleRoots lefts.now rights.now rules.now) }
{
    let mut roots = RuleRoots {
        lefts: Rooted::new(alloc),
        rights: Rooted::new(alloc),
    };
    for (k, rule) in rules.iter().enumerate() {
        roots
            .lefts
            .push(alloc, pattern_at(lefts, rule.left as usize).root(), k)?;
        roots
            .rights
            .push(alloc, pattern_at(rights, rule.right as usize).root(), k)?;
    }
    Ok(roots)
}

/// Adds the bits of the patterns that are reached by a step of a rule.
pub(crate) fn add_reached(
    lefts: &[Numbered],
    rights: &[Numbered],
    reach: &Reach,
    rules: &[RulePlaces],
    roots: &RuleRoots,
    node: RootPair,
    row: &Row,
    rows: &Rows,
    out: &mut [u64],
)
    requires few { length lefts.now < 2 ^ 32 }
    requires reach { HasRows (length lefts.now) (length rights.now) reach.now }
    requires rules { (r : places.RulePlaces) → Contains rules.now r
        → (r.left < length lefts.now) × (r.right < length rights.now) }
    requires roots { AreRuleRoots lefts.now rights.now rules.now roots.now }
    requires room { suc (words_for (length lefts.now + length rights.now)) ≤ length out.old }
    requires within { (j : ℕ) → j < length row.now.kids
        → slice_index_or row.now.kids j 0 < length rows.now.labels }
    ensures { (q : ℕ) → bit_of q out.new ≡ (bit_of q out.old || list_any (rule_adds lefts.now
        rights.now reach.now (as_column node.first) (as_column node.second)
        (labels_at rows.now.labels row.now.kids) q) rules.now) }
{
    add_firsts(lefts, rights, reach, rules, roots, node, row, rows, out);
    add_seconds(lefts, rights, reach, rules, roots, node, row, rows, out);
}

/// Where a rule's left side is at the first root, what its right side reaches.
fn add_firsts(
    lefts: &[Numbered],
    rights: &[Numbered],
    reach: &Reach,
    rules: &[RulePlaces],
    roots: &RuleRoots,
    node: RootPair,
    row: &Row,
    rows: &Rows,
    out: &mut [u64],
)
    requires few { length lefts.now < 2 ^ 32 }
    requires reach { HasRows (length lefts.now) (length rights.now) reach.now }
    requires rules { (r : places.RulePlaces) → Contains rules.now r
        → (r.left < length lefts.now) × (r.right < length rights.now) }
    requires roots { AreRuleRoots lefts.now rights.now rules.now roots.now }
    requires room { suc (words_for (length lefts.now + length rights.now)) ≤ length out.old }
    requires within { (j : ℕ) → j < length row.now.kids
        → slice_index_or row.now.kids j 0 < length rows.now.labels }
    ensures { (q : ℕ) → bit_of q out.new ≡ (bit_of q out.old || list_any (start_adds lefts.now
        reach.now (as_column node.first) (labels_at rows.now.labels row.now.kids) q) rules.now) }
{
    match node.first {
        None => {}
        Some(f) => {
            let here = roots.lefts.at(f);
            add_starts(here, lefts, rights, reach, rules, node, row, rows, out);
            let any = roots.lefts.any.as_slice();
            add_starts(any, lefts, rights, reach, rules, node, row, rows, out);
        }
    }
}

/// Where a rule's right side is at the second root, what reaches its left side.
fn add_seconds(
    lefts: &[Numbered],
    rights: &[Numbered],
    reach: &Reach,
    rules: &[RulePlaces],
    roots: &RuleRoots,
    node: RootPair,
    row: &Row,
    rows: &Rows,
    out: &mut [u64],
)
    requires few { length lefts.now < 2 ^ 32 }
    requires reach { HasRows (length lefts.now) (length rights.now) reach.now }
    requires rules { (r : places.RulePlaces) → Contains rules.now r
        → (r.left < length lefts.now) × (r.right < length rights.now) }
    requires roots { AreRuleRoots lefts.now rights.now rules.now roots.now }
    requires room { suc (words_for (length lefts.now + length rights.now)) ≤ length out.old }
    requires within { (j : ℕ) → j < length row.now.kids
        → slice_index_or row.now.kids j 0 < length rows.now.labels }
    ensures { (q : ℕ) → bit_of q out.new ≡ (bit_of q out.old || list_any (end_adds lefts.now
        rights.now reach.now (as_column node.second) (labels_at rows.now.labels row.now.kids) q)
        rules.now) }
{
    match node.second {
        None => {}
        Some(g) => {
            let here = roots.rights.at(g);
            add_ends(here, lefts, rights, reach, rules, node, row, rows, out);
            let any = roots.rights.any.as_slice();
            add_ends(any, lefts, rights, reach, rules, node, row, rows, out);
        }
    }
}

/// Of the rules at these places: where the left side is at the first root, what the right side reaches.
fn add_starts(
    listed: &[usize],
    lefts: &[Numbered],
    rights: &[Numbered],
    reach: &Reach,
    rules: &[RulePlaces],
    node: RootPair,
    row: &Row,
    rows: &Rows,
    out: &mut [u64],
)
    requires few { length lefts.now < 2 ^ 32 }
    requires reach { HasRows (length lefts.now) (length rights.now) reach.now }
    requires rules { (r : places.RulePlaces) → Contains rules.now r
        → (r.left < length lefts.now) × (r.right < length rights.now) }
    requires listed { (k : ℕ) → Contains listed.now k → k < length rules.now }
    requires room { suc (words_for (length lefts.now + length rights.now)) ≤ length out.old }
    requires within { (j : ℕ) → j < length row.now.kids
        → slice_index_or row.now.kids j 0 < length rows.now.labels }
    ensures { (q : ℕ) → bit_of q out.new ≡ (bit_of q out.old || list_any (starts_at lefts.now
        reach.now (as_column node.first) (labels_at rows.now.labels row.now.kids) q rules.now)
        listed.now) }
{
    for k in listed {
        let rule = rule_at(rules, *k);
        let starts = is_inside(
            0,
            pattern_at(lefts, rule.left as usize),
            node.first,
            row,
            rows,
        );
        add_row(starts, row_at(&reach.firsts, rule.right as usize), out);
    }
}

/// Of the rules at these places: where the right side is at the second root, what reaches the left side.
fn add_ends(
    listed: &[usize],
    lefts: &[Numbered],
    rights: &[Numbered],
    reach: &Reach,
    rules: &[RulePlaces],
    node: RootPair,
    row: &Row,
    rows: &Rows,
    out: &mut [u64],
)
    requires few { length lefts.now < 2 ^ 32 }
    requires reach { HasRows (length lefts.now) (length rights.now) reach.now }
    requires rules { (r : places.RulePlaces) → Contains rules.now r
        → (r.left < length lefts.now) × (r.right < length rights.now) }
    requires listed { (k : ℕ) → Contains listed.now k → k < length rules.now }
    requires room { suc (words_for (length lefts.now + length rights.now)) ≤ length out.old }
    requires within { (j : ℕ) → j < length row.now.kids
        → slice_index_or row.now.kids j 0 < length rows.now.labels }
    ensures { (q : ℕ) → bit_of q out.new ≡ (bit_of q out.old || list_any (ends_at lefts.now
        rights.now reach.now (as_column node.second) (labels_at rows.now.labels row.now.kids) q
        rules.now) listed.now) }
{
    let base = lefts.len();
    for k in listed {
        let rule = rule_at(rules, *k);
        let ends = is_inside(
            base,
            pattern_at(rights, rule.right as usize),
            node.second,
            row,
            rows,
        );
        add_row(ends, row_at(&reach.seconds, rule.left as usize), out);
    }
}
