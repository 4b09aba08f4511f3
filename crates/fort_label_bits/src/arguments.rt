//! The columns of an atom's arguments.
ghost use Rattle.std.specs.Prelude.{◌≡◌, ◌==◌, ℕ, List, length};
ghost use Rattle.std.specs.List.{position_or_len};
ghost use Rattle.fort_theory.specs.Cores as cores;
ghost use Rattle.fort_theory.specs.Parts as parts;
ghost use Rattle.fort_alike.specs.ListedAtoms.{AreArguments};

/// How many columns there are, and which of them the arguments are.
#[derive(Clone, Copy)]
pub struct Arguments {
    pub columns: usize,
    pub first: usize,
    pub second: usize,
}

/// The columns stand in the order of the variables' numbers; there is one where both are one variable.
pub fn arguments_of(x: u32, y: u32) -> Arguments
    ensures columns { (rel : cores.Rel) (index : ℕ) (columns : List ℕ)
        → parts.AreColumns (cores.Leaf (cores.Related rel index x y)) columns
        → result.columns ≡ length columns }
    ensures first { (rel : cores.Rel) (index : ℕ) (columns : List ℕ)
        → parts.AreColumns (cores.Leaf (cores.Related rel index x y)) columns
        → result.first ≡ position_or_len (λ n. n == x) columns }
    ensures second { (rel : cores.Rel) (index : ℕ) (columns : List ℕ)
        → parts.AreColumns (cores.Leaf (cores.Related rel index x y)) columns
        → result.second ≡ position_or_len (λ n. n == y) columns }
    ensures arguments { AreArguments result.columns result.first result.second }
{
    if x == y {
        Arguments {
            columns: 1,
            first: 0,
            second: 0,
        }
    } else if x < y {
        Arguments {
            columns: 2,
            first: 0,
            second: 1,
        }
    } else {
        Arguments {
            columns: 2,
            first: 1,
            second: 0,
        }
    }
}
