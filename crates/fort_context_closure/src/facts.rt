//! The facts of an atom on its two arguments, at a node.
ghost use Rattle.std.specs.Prelude.{◌≡◌, ℕ, ◌+◌, ◌*◌, ◌-◌, ◌<◌, ◌≤◌, ◌^◌, List, ◌++◌, map, Bool, ◌&&◌, length, slice_index_or};
ghost use Rattle.fort_alike.specs.Atoms.{kind_for};
ghost use Rattle.fort_alike.specs.Alike.{facts_of};
ghost use Rattle.fort_relations.specs.RelView.{as_rel};
ghost use Rattle.fort_label_bits.specs.RowBits.{HasBits, bit_of, labels_at};
ghost use Rattle.fort_context_closure.specs.FactTests.{fact_bit, fact_test};

use fort_label_bits::{all_under, one_under, put_mark, some_under};
use fort_labels::Rows;
use fort_relations::Rel;
use fort_tuple_symbols::Row;

/// How many facts the labels of a relation tell.
pub(crate) fn fact_count(rel: Rel) -> usize
    ensures { result ≡ length (facts_of (kind_for (as_rel rel))) }
{
    match rel {
        Rel::Root => 0,
        Rel::Eq | Rel::Par | Rel::Star | Rel::Conv => 1,
        Rel::Step | Rel::Plus => 2,
        Rel::Below => 3,
    }
}

/// Writes the facts at a node, from bit `base` on: `equal` tells whether the roots are one symbol, `root` whether there is a root
/// step.
pub(crate) fn write_facts(
    rel: Rel,
    base: usize,
    equal: bool,
    root: bool,
    row: &Row,
    rows: &Rows,
    out: &mut [u64],
)
    requires small { base < 2 ^ 62 }
    requires room { base + length (facts_of (kind_for (as_rel rel)))
        ≤ 64 * (length out.old - 1) }
    requires within { (j : ℕ) → j < length row.now.kids
        → slice_index_or row.now.kids j 0 < length rows.now.labels }
    ensures { (bits : List Bool) → length bits ≡ base → HasBits bits out.old
        → HasBits (bits ++ map (fact_test (fact_bit (kind_for (as_rel rel)) base) equal root
        (labels_at rows.now.labels row.now.kids)) (facts_of (kind_for (as_rel rel)))) out.new }
{
    match rel {
        Rel::Eq => put_mark(out, base, all_under(equal, base, row, rows)),
        Rel::Root => {}
        Rel::Step => {
            put_mark(out, base, all_under(equal, base, row, rows));
            let below = one_under(equal, base + 1, base, row, rows);
            put_mark(out, base + 1, root | below);
        }
        Rel::Below => {
            put_mark(out, base, all_under(equal, base, row, rows));
            let below = one_under(equal, base + 1, base, row, rows);
            put_mark(out, base + 1, root | below);
            put_mark(out, base + 2, below);
        }
        Rel::Par | Rel::Star | Rel::Conv => {
            put_mark(out, base, root | all_under(equal, base, row, rows));
        }
        Rel::Plus => {
            let goes = all_under(equal, base, row, rows);
            put_mark(out, base, root | goes);
            let strictly = some_under(equal, base, base + 1, row, rows);
            put_mark(out, base + 1, root | strictly);
        }
    }
}
