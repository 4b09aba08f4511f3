//! Local rules of one column.
ghost use Rattle.std.specs.Prelude.{◌≡◌, ◌<◌, ℕ, [], map, length, slice_index_or};
ghost use Rattle.fort_tuple_symbols.specs.Columns.{as_column};
ghost use Rattle.fort_tests_tables.specs.Rules.{is_first as is_first_lem, storeys as storeys_lem};

use fort_labels::{LocalRule, Rows};
use fort_terms::{Signature, Sym};
use fort_tuple_symbols::Row;

/// Whether the one term is the first constant.
#[derive(Drop)]
pub struct IsFirst<'a> {
    pub signature: &'a Signature,
}

/// The height of a term over a constant and unary symbols, up to a bound, which is accepted.
#[derive(Drop)]
pub struct Tower<'a> {
    pub signature: &'a Signature,
    pub top: u64,
}

/// 1 for the first symbol.
fn is_first(column: Option<Sym>) -> u64
    ensures { result ≡ is_first_lem (as_column column) }
{
    match column {
        Some(Sym(0)) => 1,
        _ => 0,
    }
}

/// The height of a term over one of this height.
fn storeys(top: u64, column: Option<Sym>, below: u64) -> u64
    ensures { result ≡ storeys_lem top (as_column column) below }
{
    match column {
        None => 0,
        Some(Sym(0)) => 0,
        Some(_) => { if below < top { below + 1 } else { top } }
    }
}

/// The second word of the first child's label, or 0.
fn word_below(row: &Row, rows: &Rows) -> u64
    requires { (j : ℕ) → j < length row.now.kids → slice_index_or row.now.kids j 0 < length
        rows.now.labels }
    ensures { result ≡ slice_index_or (slice_index_or (map (λ q. slice_index_or rows.now.labels q
        []) row.now.kids) 0 []) 1 0 }
{
    match row.kids().first() {
        Some(kid) => rows.label(*kid).get(1).copied().unwrap_or(0),
        None => 0,
    }
}

impl<'a> LocalRule for IsFirst<'a> {
    ghost use Rattle.std.specs.Prelude.{refl};
    ghost use Rattle.fort_tests_tables.specs.Rules.{first_rule, first_accepts};

    ghost rule = { λ s. first_rule s.signature.now };

    ghost word_count = { λ _. 2 };

    ghost accepting = { λ _. first_accepts };

    ghost tells = { λ _ f ws. refl };

    ghost has_words = { λ _ f ws. refl };

    fn columns(&self) -> usize {
        1
    }

    fn width(&self) -> usize {
        2
    }

    fn step(&self, row: &Row, _rows: &Rows, out: &mut [u64]) {
        let column = row.sym().symbol(0);
        out[0] = row.presence() as u64;
        out[1] = is_first(column);
    }

    fn accepts(&self, label: &[u64]) -> bool {
        label.get(1).copied().unwrap_or(0) == 1
    }
}

impl<'a> LocalRule for Tower<'a> {
    ghost use Rattle.std.specs.Prelude.{refl};
    ghost use Rattle.fort_tests_tables.specs.Rules.{tower_rule, tower_accepts};

    ghost rule = { λ s. tower_rule s.top s.signature.now };

    ghost word_count = { λ _. 2 };

    ghost accepting = { λ s. tower_accepts s.top };

    ghost tells = { λ _ f ws. refl };

    ghost has_words = { λ _ f ws. refl };

    fn columns(&self) -> usize {
        1
    }

    fn width(&self) -> usize {
        2
    }

    fn step(&self, row: &Row, rows: &Rows, out: &mut [u64]) {
        let column = row.sym().symbol(0);
        out[0] = row.presence() as u64;
        out[1] = storeys(self.top, column, word_below(row, rows));
    }

    fn accepts(&self, label: &[u64]) -> bool {
        label.get(1).copied().unwrap_or(0) == self.top
    }
}
