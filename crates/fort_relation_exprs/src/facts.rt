//! The facts of an atom of an expression on its two arguments, at a node.
ghost use Rattle.std.specs.Prelude.{◌≡◌, ℕ, ◌+◌, ◌*◌, ◌-◌, ◌<◌, ◌≤◌, ◌^◌, List, ◌++◌, map, Bool, ◌&&◌, length, slice_index_or};
ghost use Rattle.fort_alike.specs.ExpressionAlike.{Anywhere, Below, facts_anywhere, facts_for};
ghost use Rattle.fort_alike.specs.ExpressionRules.{fact_place, kids_test};
ghost use Rattle.fort_relations.specs.HolesView.{as_hole_number, as_hole_place};
ghost use Rattle.fort_label_bits.specs.RowBits.{HasBits, labels_at};
ghost use Rattle.fort_relation_exprs.specs.FactRows.{fact_told, fact_test};
ghost use Rattle.fort_theory.specs.Contexts.{AtTheRoot, BelowTheRoot, AnyPlace};

use fort_label_bits::{all_under, one_under, put_mark, some_under};
use fort_labels::Rows;
use fort_relations::{Holes, Place};
use fort_tuple_symbols::Row;

/// How many facts tell of holes anywhere.
fn count_anywhere(holes: Holes) -> usize
    ensures count { result ≡ length (facts_anywhere (as_hole_number holes)) }
    ensures few { result ≤ 2 }
{
    match holes {
        Holes::One | Holes::Some => 2,
        Holes::Any => 1,
    }
}

/// How many facts the labels tell.
pub(crate) fn fact_count(holes: Holes, place: Place) -> usize
    ensures count { result ≡ length (facts_for (as_hole_number holes) (as_hole_place place)) }
    ensures few { result ≤ 3 }
{
    match place {
        Place::Root => match holes {
            Holes::Any => 1,
            Holes::One | Holes::Some => 0,
        },
        Place::Below => count_anywhere(holes) + 1,
        Place::All => count_anywhere(holes),
    }
}

/// Where among the facts the one of holes anywhere stands, behind those that it is computed from.
pub(crate) fn place_anywhere(holes: Holes) -> usize
    ensures place { result ≡ fact_place (facts_anywhere (as_hole_number holes))
        (Anywhere (as_hole_number holes)) }
    ensures few { result < 2 }
{
    match holes {
        Holes::One | Holes::Some => 1,
        Holes::Any => 0,
    }
}

/// Where among the facts the one of holes below the root stands.
pub(crate) fn place_below(holes: Holes) -> usize
    ensures place { result ≡ fact_place (facts_for (as_hole_number holes) BelowTheRoot)
        (Below (as_hole_number holes)) }
    ensures few { result < 3 }
{
    match holes {
        Holes::One | Holes::Some => 2,
        Holes::Any => 1,
    }
}

/// Whether the roots are one symbol, and the children have so many holes, by their facts from bit `base` on.
fn kids_under(holes: Holes, base: usize, equal: bool, row: &Row, rows: &Rows) -> bool
    requires small { base < 2 ^ 62 }
    requires within { (j : ℕ) → j < length row.now.kids
        → slice_index_or row.now.kids j 0 < length rows.now.labels }
    ensures { result ≡ (equal && kids_test
        (fact_told base (facts_anywhere (as_hole_number holes))) (as_hole_number holes)
        (labels_at rows.now.labels row.now.kids)) }
{
    match holes {
        Holes::One => one_under(equal, base + 1, base, row, rows),
        Holes::Some => some_under(equal, base, base + 1, row, rows),
        Holes::Any => all_under(equal, base, row, rows),
    }
}

/// Writes the facts of holes anywhere, from bit `base` on: `below` tells whether there are holes below the root, `root` whether there
/// is a pair at the root.
fn write_anywhere(
    holes: Holes,
    base: usize,
    equal: bool,
    root: bool,
    below: bool,
    row: &Row,
    rows: &Rows,
    out: &mut [u64],
)
    requires small { base < 2 ^ 62 }
    requires room { base + length (facts_anywhere (as_hole_number holes))
        ≤ 64 * (length out.old - 1) }
    requires below { below ≡ (equal && kids_test
        (fact_told base (facts_anywhere (as_hole_number holes))) (as_hole_number holes)
        (labels_at rows.now.labels row.now.kids)) }
    requires within { (j : ℕ) → j < length row.now.kids
        → slice_index_or row.now.kids j 0 < length rows.now.labels }
    ensures { (bits : List Bool) → length bits ≡ base → HasBits bits out.old
        → HasBits (bits ++ map (fact_test (fact_told base
        (facts_anywhere (as_hole_number holes))) equal root
        (labels_at rows.now.labels row.now.kids)) (facts_anywhere (as_hole_number holes)))
        out.new }
{
    match holes {
        Holes::One => {
            put_mark(out, base, all_under(equal, base, row, rows));
            put_mark(out, base + 1, root | below);
        }
        Holes::Some => {
            put_mark(out, base, root | all_under(equal, base, row, rows));
            put_mark(out, base + 1, root | below);
        }
        Holes::Any => put_mark(out, base, root | below),
    }
}

/// Writes the facts of holes anywhere, and behind them whether there are holes below the root.
fn write_below(
    holes: Holes,
    base: usize,
    equal: bool,
    root: bool,
    row: &Row,
    rows: &Rows,
    out: &mut [u64],
)
    requires small { base < 2 ^ 62 }
    requires room { base + length (facts_for (as_hole_number holes) BelowTheRoot)
        ≤ 64 * (length out.old - 1) }
    requires within { (j : ℕ) → j < length row.now.kids
        → slice_index_or row.now.kids j 0 < length rows.now.labels }
    ensures { (bits : List Bool) → length bits ≡ base → HasBits bits out.old
        → HasBits (bits ++ map (fact_test (fact_told base
        (facts_for (as_hole_number holes) BelowTheRoot)) equal root
        (labels_at rows.now.labels row.now.kids)) (facts_for (as_hole_number holes) BelowTheRoot))
        out.new }
{
    let below = kids_under(holes, base, equal, row, rows);
    write_anywhere(holes, base, equal, root, below, row, rows, out);
    put_mark(out, base + place_below(holes), below);
}

/// Writes the facts at the root, from bit `base` on.
fn write_at_root(holes: Holes, base: usize, equal: bool, row: &Row, rows: &Rows, out: &mut [u64])
    requires small { base < 2 ^ 62 }
    requires room { base + length (facts_for (as_hole_number holes) AtTheRoot)
        ≤ 64 * (length out.old - 1) }
    requires within { (j : ℕ) → j < length row.now.kids
        → slice_index_or row.now.kids j 0 < length rows.now.labels }
    ensures { (root : Bool) (bits : List Bool) → length bits ≡ base → HasBits bits out.old
        → HasBits (bits ++ map (fact_test (fact_told base
        (facts_for (as_hole_number holes) AtTheRoot)) equal root
        (labels_at rows.now.labels row.now.kids)) (facts_for (as_hole_number holes) AtTheRoot))
        out.new }
{
    match holes {
        Holes::Any => put_mark(out, base, all_under(equal, base, row, rows)),
        Holes::One | Holes::Some => {}
    }
}

/// Writes the facts at a node, from bit `base` on: `equal` tells whether the roots are one symbol, `root` whether there is a pair at
/// the root.
pub(crate) fn write_facts(
    holes: Holes,
    place: Place,
    base: usize,
    equal: bool,
    root: bool,
    row: &Row,
    rows: &Rows,
    out: &mut [u64],
)
    requires small { base < 2 ^ 62 }
    requires room { base + length (facts_for (as_hole_number holes) (as_hole_place place))
        ≤ 64 * (length out.old - 1) }
    requires within { (j : ℕ) → j < length row.now.kids
        → slice_index_or row.now.kids j 0 < length rows.now.labels }
    ensures { (bits : List Bool) → length bits ≡ base → HasBits bits out.old
        → HasBits (bits ++ map (fact_test (fact_told base
        (facts_for (as_hole_number holes) (as_hole_place place))) equal root
        (labels_at rows.now.labels row.now.kids))
        (facts_for (as_hole_number holes) (as_hole_place place))) out.new }
{
    match place {
        Place::Root => write_at_root(holes, base, equal, row, rows, out),
        Place::Below => write_below(holes, base, equal, root, row, rows, out),
        Place::All => {
            let below = kids_under(holes, base, equal, row, rows);
            write_anywhere(holes, base, equal, root, below, row, rows, out);
        }
    }
}
