//! The views of the places under a tuple symbol.
ghost use Rattle.std.specs.Prelude.{◌≡◌, ℕ, ◌≤◌, [], length};

use std::marker::Model;

/// The numbers of up to 8 views.
#[derive(Drop)]
pub struct PlaceViews {
    count: usize,
    numbers: [usize; 8],
}

impl Model for PlaceViews {
    ghost use Rattle.std.specs.Prelude.{ℕ, List};

    ghost Value = { List ℕ };

    ghost use Rattle.fort_views.specs.PlaceNumbers.{numbers_in, AreNumbers};

    ghost view = { numbers_in };

    ghost invariant = { AreNumbers };
}

impl PlaceViews {
    pub fn none() -> PlaceViews
        ensures { result ≡ [] }
    {
        PlaceViews {
            count: 0,
            numbers: [0; 8],
        }
    }

    pub fn of(views: &[usize]) -> PlaceViews
        requires { length views.now ≤ 8 }
        ensures { result ≡ views.now }
    {
        let mut numbers = [0usize; 8];
        numbers[..views.len()].copy_from_slice(views);
        PlaceViews {
            count: views.len(),
            numbers,
        }
    }

    pub fn numbers(&self) -> &[usize]
        ensures numbers { result.now ≡ self.now }
        ensures few { length result.now ≤ 8 }
    {
        let numbers = &self.numbers;
        &numbers[..self.count]
    }
}
