//! Sides of rules, with their variables.
ghost use Rattle.std.specs.Prelude.{◌≡◌, ◌++◌, IfOk, OnOk};
ghost use Rattle.fort_theory.specs.Patterns.{pattern_of};
ghost use Rattle.fort_theory.specs.Sides.{variables};
ghost use Rattle.fort_terms.specs.PatternView.{as_pattern};
ghost use Rattle.fort_terms.specs.SideView.{as_side, as_sides};

use crate::pattern::{Pattern, Patterns};
use crate::sym::Sym;
use std::alloc::{AllocError, Global};
use std::marker::Model;

/// A side of a rule, with its variables.
#[derive(Drop)]
#[cycle(side)]
pub enum Side {
    /// A variable, by its number in its rule.
    Var(u32),
    /// A symbol and its arguments.
    App(Sym, Sides),
}

/// The arguments of a side.
#[derive(Drop)]
#[cycle(side)]
pub struct Sides {
    items: Vec<Side>,
}

impl Model for Sides {
    ghost use Rattle.fort_theory.specs.Sides as theory;
    ghost use Rattle.fort_theory.specs.SideCode.{sides_code};

    ghost Value = { theory.Sides };

    ghost coded = { sides_code };

    ghost use Rattle.fort_terms.specs.SideView.{as_sides, node_counts};

    ghost view = { λ a. as_sides a.items.items };

    ghost size = { node_counts };

    ghost use Rattle.std.proofs.Common.{arith};
    ghost use Rattle.fort_terms.specs.SideFalls.{most_below};

    ghost size_decreases = { λ a h. omega (arith, most_below a.items.items) };
}

impl Sides {
    /// The arguments in this order. It takes no memory.
    pub fn new(items: Vec<Side>) -> Sides
        ensures { result ≡ as_sides items.items }
    {
        Sides { items }
    }

    /// The arguments in order.
    pub fn as_slice(&self) -> &[Side]
        ensures { as_sides result.now ≡ self.now }
    {
        self.items.as_slice()
    }
}

impl Side {
    /// The side without the names of its variables.
    pub fn pattern(&self, alloc: Global) -> Result<Pattern, AllocError>
        ensures { IfOk result (λ p. as_pattern p ≡ pattern_of (as_side self.now)) }
    {
        match self {
            Side::Var(_) => Ok(Pattern::Any),
            Side::App(sym, args) => {
                let mut patterns = Vec::new(alloc);
                for arg in &args.items {
                    patterns.push(arg.pattern(alloc)?)?;
                }
                Ok(Pattern::App(*sym, Patterns::new(patterns)))
            }
        }
    }

    /// The variables from left to right, each as often as it stands there.
    pub fn variables(&self, alloc: Global) -> Result<Vec<u32>, AllocError>
        ensures { IfOk result (λ vs. vs.items ≡ variables (as_side self.now)) }
    {
        let mut found = Vec::new(alloc);
        self.push_variables(&mut found)?;
        Ok(found)
    }

    fn push_variables(&self, found: &mut Vec<u32>) -> Result<(), AllocError>
        ensures { OnOk result (found.new.items ≡ found.old.items ++ variables (as_side self.now)) }
    {
        match self {
            Side::Var(variable) => found.push(*variable)?,
            Side::App(_, args) => {
                for arg in &args.items {
                    arg.push_variables(found)?;
                }
            }
        }
        Ok(())
    }
}
