//! The places of numbers among the columns of a part.
ghost use Rattle.std.specs.Prelude.{◌≡◌, ℕ, Contains, IfOk};
ghost use Rattle.fort_parts.specs.PartColumns.{place_in, places_in};

use std::alloc::{AllocError, Global};

/// The place of a number among ascending columns.
pub fn column_of(columns: &[u32], number: u32) -> usize
    requires { Contains columns.now number }
    ensures { result ≡ place_in columns.now number }
{
    for place in 0..columns.len() {
        if columns[place] == number {
            return place;
        }
    }
    unreachable!()
}

/// The places of numbers among ascending columns, which have them all.
pub fn places_among(
    alloc: Global,
    columns: &[u32],
    numbers: &[u32],
) -> Result<Vec<usize>, AllocError>
    requires { (n : ℕ) → Contains numbers.now n → Contains columns.now n }
    ensures { IfOk result (λ ps. ps.items ≡ places_in columns.now numbers.now) }
{
    let mut places = Vec::with_capacity(alloc, numbers.len())?;
    for k in 0..numbers.len() {
        places.push(column_of(columns, numbers[k]))?;
    }
    Ok(places)
}
