//! Patterns by the places of their arguments, and their test at a node by the bits of the children.
ghost use Rattle.std.specs.Prelude.{◌≡◌, None, ℕ, ◌+◌, ◌*◌, ◌-◌, ◌<◌, ◌≤◌, ◌^◌, List, [], ◌++◌, Bool, ◌||◌, map, length, get_or, slice_index_or, drop, Contains, IfOk, OnOk};
ghost use Rattle.fort_theory.specs.Patterns.{Any};
ghost use Rattle.fort_theory.specs.PatternOrder.{AllAmong};
ghost use Rattle.fort_terms.specs.PatternView.{as_pattern, as_patterns};
ghost use Rattle.fort_tree_automata.specs.PatternMoves.{IsClosedInOrder};
ghost use Rattle.fort_tuple_symbols.specs.Columns.{as_column};
ghost use Rattle.fort_alike.specs.PatternNumbers.{AreAt, IsNumberOf, all_at, number_inside};
ghost use Rattle.fort_label_bits.specs.NumberedView.{AreNumbersOf};
ghost use Rattle.fort_label_bits.specs.RowBits.{HasBits, bit_of, labels_at};
ghost use Rattle.fort_label_bits.specs.RootPlaces.{IsRooted, root_of, writes_at};
ghost use Rattle.std.specs.List.{list_any};

use crate::bits::{add_mark, has_mark, put_mark};
use crate::rooted::Rooted;
use fort_labels::Rows;
use fort_terms::{Pattern, Sym, has_numbers};
use fort_tree_automata::place;
use fort_tuple_symbols::Row;
use std::alloc::{AllocError, Global};
use std::marker::Model;

/// A pattern by its symbol and the places of its arguments in a list of patterns, or Any.
#[derive(Drop)]
pub struct Numbered {
    /// None for Any, which has no arguments.
    pub sym: Option<Sym>,
    pub args: Vec<u32>,
}

impl Model for Numbered {
    ghost use Rattle.fort_alike.specs.PatternNumbers.{PatternNumber};
    ghost use Rattle.fort_label_bits.specs.NumberedView.{number_seen};

    ghost Value = { PatternNumber };

    ghost view = { λ n. number_seen n.sym n.args.items };
}

impl Numbered {
    /// The symbol at the root; Any has none.
    pub fn root(&self) -> Option<Sym>
        ensures { as_column result ≡ root_of self.now }
    {
        self.sym
    }
}

/// Each pattern by numbers, in the list's order. A list of 2^32 patterns or more, for which there are no numbers, is want of memory.
pub fn number_patterns(alloc: Global, patterns: &[Pattern]) -> Result<Vec<Numbered>, AllocError>
    requires { IsClosedInOrder (map as_pattern patterns.now) }
    ensures few { OnOk result (length patterns.now < 2 ^ 32) }
    ensures numbers { IfOk result (λ rows.
        AreNumbersOf (map as_pattern patterns.now) rows.items) }
{
    if !has_numbers(patterns.len()) {
        return Err(AllocError);
    }
    let mut rows = Vec::with_capacity(alloc, patterns.len())?;
    for pattern in patterns {
        rows.push(number_of(alloc, pattern, patterns)?)?;
    }
    Ok(rows)
}

fn number_of(alloc: Global, pattern: &Pattern, patterns: &[Pattern]) -> Result<Numbered, AllocError>
    requires few { length patterns.now < 2 ^ 32 }
    requires closed { IsClosedInOrder (map as_pattern patterns.now) }
    requires listed { Contains (map as_pattern patterns.now) (as_pattern pattern.now) }
    ensures { IfOk result (λ row.
        IsNumberOf (map as_pattern patterns.now) row (as_pattern pattern.now)) }
{
    match pattern {
        Pattern::Any => Ok(Numbered {
            sym: None,
            args: Vec::new(alloc),
        }),
        Pattern::App(sym, args) => Ok(Numbered {
            sym: Some(*sym),
            args: places_of(alloc, args.as_slice(), patterns)?,
        }),
    }
}

/// The places of some arguments, all of which are in the list.
fn places_of(alloc: Global, args: &[Pattern], patterns: &[Pattern]) -> Result<Vec<u32>, AllocError>
    requires few { length patterns.now < 2 ^ 32 }
    requires closed { IsClosedInOrder (map as_pattern patterns.now) }
    requires among { AllAmong (map as_pattern patterns.now) (as_patterns args.now) }
    ensures { IfOk result (λ places.
        AreAt (map as_pattern patterns.now) places.items (as_patterns args.now)) }
{
    let mut places = Vec::with_capacity(alloc, args.len())?;
    for arg in args {
        places.push(place_of(arg, patterns))?;
    }
    Ok(places)
}

/// The place of a pattern that is in the list.
pub fn place_of(pattern: &Pattern, patterns: &[Pattern]) -> u32
    requires few { length patterns.now < 2 ^ 32 }
    requires closed { IsClosedInOrder (map as_pattern patterns.now) }
    requires listed { Contains (map as_pattern patterns.now) (as_pattern pattern.now) }
    ensures within { result < length patterns.now }
    ensures at { get_or (map as_pattern patterns.now) result Any ≡ as_pattern pattern.now }
{
    place(patterns, pattern)
}

/// Whether the pattern is at a node of this root symbol over the row's children, whose labels have the bits of the list's patterns
/// from bit `base` on, behind the first word.
pub fn is_inside(base: usize, pattern: &Numbered, root: Option<Sym>, row: &Row, rows: &Rows) -> bool
    requires base { base < 2 ^ 62 }
    requires within { (j : ℕ) → j < length row.now.kids
        → slice_index_or row.now.kids j 0 < length rows.now.labels }
    ensures { result ≡ number_inside base pattern.now (as_column root)
        (map (λ q. slice_index_or rows.now.labels q []) row.now.kids) }
{
    match root {
        None => false,
        Some(f) => match pattern.sym {
            None => true,
            Some(g) => g == f && are_inside(base, &pattern.args, row, rows),
        },
    }
}

/// Whether the row's children have the bits of these places, one each.
fn are_inside(base: usize, places: &[u32], row: &Row, rows: &Rows) -> bool
    requires base { base < 2 ^ 62 }
    requires within { (j : ℕ) → j < length row.now.kids
        → slice_index_or row.now.kids j 0 < length rows.now.labels }
    ensures { result ≡ all_at base places.now
        (map (λ q. slice_index_or rows.now.labels q []) row.now.kids) }
{
    let kids = row.kids();
    if kids.len() < places.len() {
        return false;
    }
    for j in 0..places.len() {
        if !has_mark(rows.label(kids[j]), base + places[j] as usize) {
            return false;
        }
    }
    true
}

/// Writes for each pattern whether it is at a node with this root, from bit `base` on, where their bits are in the children's labels too.
pub fn write_inside(
    patterns: &[Numbered],
    base: usize,
    root: Option<Sym>,
    row: &Row,
    rows: &Rows,
    out: &mut [u64],
)
    requires small { base < 2 ^ 62 }
    requires room { base + length patterns.now ≤ 64 * (length out.old - 1) }
    requires within { (j : ℕ) → j < length row.now.kids
        → slice_index_or row.now.kids j 0 < length rows.now.labels }
    ensures { (bits : List Bool) → length bits ≡ base → HasBits bits out.old
        → HasBits (bits ++ map (λ p. number_inside base p (as_column root)
        (labels_at rows.now.labels row.now.kids)) patterns.now) out.new }
{
    for (k, pattern) in patterns.iter().enumerate() {
        put_mark(out, base + k, is_inside(base, pattern, root, row, rows));
    }
}

/// The pattern at a place.
pub fn pattern_at(patterns: &[Numbered], place: usize) -> &Numbered
    requires { place < length patterns.now }
    ensures { result.now ≡ get_or patterns.now place None }
{
    &patterns[place]
}

/// Writes for the patterns at these places whether they are at a node with this root.
fn write_places(
    places: &[usize],
    patterns: &[Numbered],
    base: usize,
    root: Option<Sym>,
    row: &Row,
    rows: &Rows,
    out: &mut [u64],
)
    requires small { base < 2 ^ 62 }
    requires few { length patterns.now < 2 ^ 32 }
    requires room { base + length patterns.now ≤ 64 * (length out.old - 1) }
    requires places { (k : ℕ) → Contains places.now k → k < length patterns.now }
    requires within { (j : ℕ) → j < length row.now.kids
        → slice_index_or row.now.kids j 0 < length rows.now.labels }
    ensures { (q : ℕ) → bit_of q out.new ≡ (bit_of q out.old || list_any (writes_at base
        patterns.now (as_column root) (labels_at rows.now.labels row.now.kids) q) places.now) }
{
    for place in places {
        let on = is_inside(base, pattern_at(patterns, *place), root, row, rows);
        add_mark(out, base + *place, on);
    }
}

/// The same as `write_inside`, where each pattern is listed under its root.
pub fn write_rooted(
    patterns: &[Numbered],
    rooted: &Rooted,
    base: usize,
    root: Option<Sym>,
    row: &Row,
    rows: &Rows,
    out: &mut [u64],
)
    requires rooted { IsRooted (map root_of patterns.now) rooted.now }
    requires small { base < 2 ^ 62 }
    requires few { length patterns.now < 2 ^ 32 }
    requires room { base + length patterns.now ≤ 64 * (length out.old - 1) }
    requires within { (j : ℕ) → j < length row.now.kids
        → slice_index_or row.now.kids j 0 < length rows.now.labels }
    ensures { (bits : List Bool) → length bits ≡ base → HasBits bits out.old
        → HasBits (bits ++ map (λ p. number_inside base p (as_column root)
        (labels_at rows.now.labels row.now.kids)) patterns.now) out.new }
{
    match root {
        None => {}
        Some(f) => {
            write_places(rooted.at(f), patterns, base, root, row, rows, out);
            let any = rooted.any.as_slice();
            write_places(any, patterns, base, root, row, rows, out);
        }
    }
}

/// The patterns under their roots.
pub fn root_patterns(alloc: Global, patterns: &[Numbered]) -> Result<Rooted, AllocError>
    ensures { IfOk result (IsRooted (map root_of patterns.now)) }
{
    let mut rooted = Rooted::new(alloc);
    for (k, pattern) in patterns.iter().enumerate() {
        rooted.push(alloc, pattern.root(), k)?;
    }
    Ok(rooted)
}
