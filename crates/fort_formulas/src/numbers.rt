//! Whether there are numbers enough for a formula.

ghost use Rattle.std.specs.Prelude.{◌≡◌, ℕ, ◌+◌, ◌^◌, ◌≤◌, ◌↔◌, IsTrue};
ghost use Rattle.fort_formulas.specs.FormulaView.{as_argument, as_formula};
ghost use Rattle.fort_formulas.specs.NumbersNeeded.{argument_numbers, binder_numbers};

use crate::surface::{Arg, Formula};

/// How many numbers there are.
const NUMBERS: usize = 4_294_967_296;

/// How many numbers an argument takes for itself: a ground term has a variable of its own.
pub fn argument_numbers(arg: &Arg) -> u32
    ensures is { result ≡ argument_numbers (as_argument arg.now) }
    ensures few { result ≤ 1 }
{
    match arg {
        Arg::Var(_) => 0,
        Arg::Ground(_) => 1,
    }
}

fn both_numbers(a: &Arg, b: &Arg) -> usize
    ensures is { result
        ≡ argument_numbers (as_argument a.now) + argument_numbers (as_argument b.now) }
    ensures few { result ≤ 2 }
{
    (argument_numbers(a) + argument_numbers(b)) as usize
}

/// Whether the numbers from this one on are enough for what the formula binds.
pub fn fits(formula: &Formula, used: usize) -> bool
    ensures { IsTrue result ↔ used + binder_numbers (as_formula formula.now) ≤ 2 ^ 32 }
{
    match formula {
        Formula::True | Formula::False => used <= NUMBERS,
        Formula::Rel(_, a, b, _) | Formula::Rex(_, _, _, a, b) => used
            <= NUMBERS - both_numbers(a, b),
        Formula::Nf(a, _) => used <= NUMBERS - argument_numbers(a) as usize,
        Formula::Join(a, b, _) => used < NUMBERS - both_numbers(a, b),
        Formula::Sn(Some(a), _) => used < NUMBERS - argument_numbers(a) as usize,
        Formula::Sn(None, _) => used <= NUMBERS - 2,
        Formula::Macro(_, _) | Formula::Com => used <= NUMBERS - 3,
        Formula::Not(f) => fits(f.as_formula(), used),
        Formula::And(f, g) | Formula::Or(f, g) | Formula::Imp(f, g) | Formula::Iff(f, g) => {
            fits(f.as_formula(), used) && fits(g.as_formula(), used)
        }
        Formula::Exists(_, f) | Formula::Forall(_, f) | Formula::Infinite(_, f) => {
            used < NUMBERS && fits(f.as_formula(), used + 1)
        }
    }
}
