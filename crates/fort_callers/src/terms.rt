//! A system of one rule.
ghost use Rattle.std.specs.Prelude.{◌≡◌, ◌↔◌, IfOk, IfErr};
ghost use Rattle.fort_theory.specs.Trees.{Tree};
ghost use Rattle.fort_theory.specs.Patterns.{pattern_system};
ghost use Rattle.fort_theory.specs.PatternSteps.{PatternStepAt};
ghost use Rattle.fort_theory.specs.Rewriting.{RootStepAt};
ghost use Rattle.fort_callers.specs.OneRule.{a_and_f, one_rule};

use fort_terms::{AddFault, RuleFault, Side, Sides, Signature, Sym, System};
use std::alloc::Global;

/// A constant a, and a symbol f of one argument.
pub fn symbols(alloc: Global) -> Result<Signature, AddFault>
    ensures symbols { IfOk result (λ s. s ≡ a_and_f) }
    ensures memory { IfErr result (λ e. e ≡ AddFault.Memory) }
{
    let mut signature = Signature::empty(alloc);
    signature.add(b"a", 0)?;
    signature.add(b"f", 1)?;
    Ok(signature)
}

/// The system of the rule f(x) -> a, under index 1.
pub fn system(alloc: Global, symbols: Signature) -> Result<System, RuleFault>
    requires { symbols ≡ a_and_f }
    ensures rules { IfOk result (λ s. s ≡ pattern_system one_rule) }
    ensures steps { IfOk result (λ s. (t u : Tree)
        → RootStepAt one_rule 1 t u ↔ PatternStepAt s 1 t u) }
    ensures memory { IfErr result (λ e. e ≡ RuleFault.Memory) }
{
    let mut system = System::new(alloc, symbols, 1)?;
    let left = Side::App(Sym(1), Sides::new(vec![in alloc; Side::Var(0)]?));
    let right = Side::App(Sym(0), Sides::new(Vec::new(alloc)));
    system.push(1, &left, &right)?;
    Ok(system)
}
