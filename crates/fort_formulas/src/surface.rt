//! Formulas as users write them.

ghost use Rattle.std.specs.Prelude.{◌≡◌, IfOk};
ghost use Rattle.fort_formulas.specs.FormulaView.{as_formula};

use fort_relations::{Holes, Place, Rex};
use std::alloc::{AllocError, Global};
use std::marker::Model;

/// A variable's name.
#[derive(Drop)]
pub struct Name {
    bytes: Vec<u8>,
}

impl Model for Name {
    ghost use Rattle.std.specs.Prelude.{ℕ, List};

    ghost Value = { List ℕ };

    ghost view = { λ n. n.bytes.items };
}

impl Name {
    /// The name of these bytes. It takes no memory.
    pub fn new(bytes: Vec<u8>) -> Name
        ensures { result ≡ bytes.items }
    {
        Name { bytes }
    }

    /// The bytes of the name.
    pub fn as_bytes(&self) -> &[u8]
        ensures { result.now ≡ self.now }
    {
        self.bytes.as_slice()
    }

    /// An equal name.
    pub fn copy(&self, alloc: Global) -> Result<Name, AllocError>
        ensures { IfOk result (λ name. name ≡ self.now) }
    {
        Ok(Name {
            bytes: Vec::from_slice(alloc, &self.bytes)?,
        })
    }
}

/// A relation between two terms.
#[derive(Clone, Copy, Debug, PartialEq, Eq)]
pub enum SurfaceRel {
    /// They are equal.
    Eq,
    /// A step.
    Step,
    /// Any number of steps.
    Star,
    /// At least one step.
    Plus,
    /// At most one step.
    Reflexive,
    /// A reduction to a normal form.
    Normal,
    /// A step at the root.
    Root,
    /// A step below the root.
    Below,
    /// A parallel step.
    Par,
    /// A step in one of the two directions.
    Either,
    /// A conversion.
    Conv,
}

/// A property of a rewrite system.
#[derive(Clone, Copy, Debug, PartialEq, Eq)]
pub enum Macro {
    /// Confluence.
    Cr,
    /// Local confluence.
    Wcr,
    /// Strong confluence.
    Scr,
    /// Normalisation.
    Wn,
    /// Unique normal forms by reduction.
    Unr,
    /// Unique normal forms by conversion.
    Unc,
    /// The normal form property.
    Nfp,
}

/// What relations speak of.
#[derive(Drop)]
pub enum Arg {
    /// A variable.
    Var(Name),
    /// A ground term that is written out: its place, from 0, among all that are written in the
    /// text of the formula.
    Ground(u32),
}

/// A formula as a user writes it, with names for variables.
#[derive(Drop)]
#[cycle(formula)]
pub enum Formula {
    True,
    False,
    /// These two are related, by the rules of this index.
    Rel(SurfaceRel, Arg, Arg, u32),
    /// These two are one context with pairs of this relation in its holes, of which there are so
    /// many at such places.
    Rex(Rex, Holes, Place, Arg, Arg),
    /// This is a normal form of the rules of this index.
    Nf(Arg, u32),
    /// These two have a common reduct by the rules of this index.
    Join(Arg, Arg, u32),
    /// This terminates by the rules of this index; without an argument every ground term does.
    Sn(Option<Arg>, u32),
    /// The rules of this index have this property.
    Macro(Macro, u32),
    /// The rules of index 1 and those of index 2 commute.
    Com,
    Not(Operand),
    And(Operand, Operand),
    Or(Operand, Operand),
    Imp(Operand, Operand),
    Iff(Operand, Operand),
    /// Some value of this variable meets the operand.
    Exists(Name, Operand),
    /// Each value of this variable meets the operand.
    Forall(Name, Operand),
    /// Infinitely many values of this variable meet the operand.
    Infinite(Name, Operand),
}

/// An operand of a formula.
#[derive(Drop)]
#[cycle(formula)]
pub struct Operand {
    formula: Box<Formula>,
}

impl Model for Operand {
    ghost use Rattle.fort_logic.specs.Formulas as theory;
    ghost use Rattle.fort_formulas.specs.FormulaCode.{formula_code};

    ghost Value = { theory.Formula };

    ghost coded = { formula_code };

    ghost use Rattle.fort_formulas.specs.FormulaView.{as_formula, node_count};

    ghost view = { λ o. as_formula o.formula.value };

    ghost size = { node_count };

    ghost use Rattle.std.proofs.Common.{arith};
    ghost use Rattle.fort_formulas.specs.FormulaFalls.{deep_below};

    ghost size_decreases = { λ o h. omega (arith, deep_below o.formula.value) };
}

impl Operand {
    /// This formula as an operand.
    pub fn new(alloc: Global, formula: Formula) -> Result<Operand, AllocError>
        ensures { IfOk result (λ operand. operand ≡ as_formula formula) }
    {
        Ok(Operand {
            formula: Box::new(alloc, formula)?,
        })
    }

    /// The formula. It takes no memory.
    pub fn as_formula(&self) -> &Formula
        ensures { as_formula result.now ≡ self.now }
    {
        &self.formula
    }
}
