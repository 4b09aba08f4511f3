//! A formula and its core formula.
ghost use Rattle.std.specs.Prelude.{◌≡◌, [], IfOk, IfErr};
ghost use Rattle.fort_theory.specs.Patterns.{PatternSystem};
ghost use Rattle.fort_theory.specs.Sides.{IsIndexOf};
ghost use Rattle.fort_theory.specs.Parts.{IsClosed};
ghost use Rattle.fort_logic.specs.KeepsTruth.{KeepsTruth};
ghost use Rattle.fort_formulas.specs.CoreView.{as_core};
ghost use Rattle.fort_formulas.specs.FormulaView.{as_formula};
ghost use Rattle.fort_parts.specs.DecidedCores.{IsDecided};
ghost use Rattle.fort_callers.specs.AllNormal.{all_normal};

use fort_formulas::{Arg, Core, CoreFault, Formula, Name, Operand, to_core};
use std::alloc::{AllocError, Global};

/// forall x (NF(x)), of the rules of index 1.
pub fn formula(alloc: Global) -> Result<Formula, AllocError>
    ensures { IfOk result (λ f. as_formula f ≡ all_normal) }
{
    let bound = Name::new(vec![in alloc; b'x']?);
    let argument = Arg::Var(bound.copy(alloc)?);
    let body = Operand::new(alloc, Formula::Nf(argument, 1))?;
    Ok(Formula::Forall(bound, body))
}

/// Its core formula, which is closed and can be decided over each system.
pub fn core(alloc: Global, formula: &Formula) -> Result<Core, CoreFault>
    requires { as_formula formula.now ≡ all_normal }
    ensures truth { IfOk result (λ c. KeepsTruth [] all_normal (as_core c)) }
    ensures closed { IfOk result (λ c. IsClosed (as_core c)) }
    ensures decided { IfOk result (λ c. (system : PatternSystem)
        → IsIndexOf system.rules 1 → IsDecided system (as_core c)) }
    ensures memory { IfErr result (λ e. e ≡ CoreFault.Memory) }
{
    to_core(alloc, formula, &[])
}
