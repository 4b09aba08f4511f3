//! The facts that are asked of a child.
ghost use Rattle.std.specs.Prelude.{◌≡◌, ℕ, ◌+◌, ◌*◌, ◌-◌, ◌<◌, ◌≤◌, ◌^◌, List, ◌++◌, Bool, replicate, length};
ghost use Rattle.fort_tuple_symbols.specs.Columns.{as_column};
ghost use Rattle.fort_alike.specs.Alike.{facts_of};
ghost use Rattle.fort_label_bits.specs.RowBits.{HasBits};
ghost use Rattle.fort_mark_keys.specs.AskedFacts.{kind_seen, asked_count as asked_count_lem, are_asked as are_asked_lem};

use fort_label_bits::{is_there, put_mark, same_roots};
use fort_relations::Rel;
use fort_terms::Sym;

/// How many facts the labels of a relation tell, or those of normal forms.
pub(crate) fn fact_count(rel: Option<Rel>) -> usize
    ensures { result ≡ length (facts_of (kind_seen rel)) }
{
    match rel {
        None => 1,
        Some(rel) => match rel {
            Rel::Root => 0,
            Rel::Eq | Rel::Par | Rel::Star | Rel::Conv => 1,
            Rel::Step | Rel::Plus => 2,
            Rel::Below => 3,
        },
    }
}

/// How many of them may be asked; they come first.
pub(crate) fn asked_count(rel: Option<Rel>) -> usize
    ensures { result ≡ asked_count_lem (kind_seen rel) }
{
    match rel {
        None => 1,
        Some(rel) => match rel {
            Rel::Root => 0,
            Rel::Eq | Rel::Par | Rel::Star | Rel::Conv => 1,
            Rel::Step | Rel::Plus | Rel::Below => 2,
        },
    }
}

/// Whether they are asked under these roots.
pub(crate) fn are_asked(rel: Option<Rel>, first: Option<Sym>, second: Option<Sym>) -> bool
    ensures { result ≡ are_asked_lem rel (as_column first) (as_column second) }
{
    match rel {
        None => is_there(first),
        Some(_) => same_roots(first, second),
    }
}

/// Puts so many bits.
pub(crate) fn put_marks(count: usize, base: usize, on: bool, out: &mut [u64])
    requires small { base < 2 ^ 62 }
    requires few { count ≤ 2 }
    requires room { base + count ≤ 64 * (length out.old - 1) }
    ensures { (bits : List Bool) → length bits ≡ base → HasBits bits out.old
        → HasBits (bits ++ replicate count on) out.new }
{
    for k in 0..count {
        put_mark(out, base + k, on);
    }
}
