//! Up to 16 digits, one for each column, the last of which may be raised.
ghost use Rattle.std.specs.Prelude.{◌≡◌, ℕ, ◌+◌, ◌≤◌, List, [], ◌∷◌, ◌++◌, length, replicate, slice_index_or};

use std::marker::Model;

/// Up to 16 digits, one for each column.
#[derive(Drop)]
pub struct DigitRow {
    pub(crate) start: usize,
    pub(crate) digits: [u32; 16],
}

impl Model for DigitRow {
    ghost use Rattle.std.specs.Prelude.{◌≡◌, ℕ, ◌≤◌, List, drop, length};

    ghost Value = { List ℕ };

    ghost view = { λ r. drop r.start r.digits };

    ghost invariant = { λ r. (r.start ≤ 16) × (length r.digits ≡ 16) };
}

impl DigitRow {
    pub fn zeros(columns: usize) -> DigitRow
        requires { columns ≤ 16 }
        ensures { result ≡ replicate columns 0 }
    {
        DigitRow {
            start: 16 - columns,
            digits: [0; 16],
        }
    }

    pub fn copy(&self) -> DigitRow
        ensures { result ≡ self.now }
    {
        let start = self.start;
        let digits = self.digits;
        DigitRow { start, digits }
    }

    /// The last column's digit is one more.
    pub fn raise_last(&mut self)
        requires { (k : ℕ) → slice_index_or self.old k 0 ≤ 65536 }
        ensures { (ds : List ℕ) (d : ℕ) → self.old ≡ ds ++ d ∷ []
            → self.new ≡ ds ++ (d + 1) ∷ [] }
    {
        let start = self.start;
        let digits = &mut self.digits;
        raise(&mut digits[start..]);
    }

    pub fn digits(&self) -> &[u32]
        ensures digits { result.now ≡ self.now }
        ensures few { length result.now ≤ 16 }
    {
        let digits = &self.digits;
        &digits[self.start..]
    }
}

fn raise(digits: &mut [u32])
    requires { (k : ℕ) → slice_index_or digits.old k 0 ≤ 65536 }
    ensures width { length digits.new ≡ length digits.old }
    ensures raised { (ds : List ℕ) (d : ℕ) → digits.old ≡ ds ++ d ∷ []
        → digits.new ≡ ds ++ (d + 1) ∷ [] }
{
    match digits.split_last_mut() {
        None => {}
        Some((last, _others)) => *last += 1,
    }
}
