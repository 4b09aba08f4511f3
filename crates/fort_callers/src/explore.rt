//! The table of the normal forms.
ghost use Rattle.std.specs.Prelude.{IfOk, IfErr};
ghost use Rattle.fort_theory.specs.Sides.{IsIndexOf};
ghost use Rattle.fort_theory.specs.Cores.{Leaf, Normal};
ghost use Rattle.fort_theory.specs.PatternStructures.{pattern_structure};
ghost use Rattle.fort_tables.specs.Tables.{IsListed, listed_table};
ghost use Rattle.fort_parts.specs.AlikeParts.{AlikeAt};
ghost use Rattle.fort_parts.specs.PartAnswers.{OfTable, IsAnswerTo};
ghost use Rattle.fort_parts.specs.RightAnswers.{HasTooManyBy};
ghost use Rattle.fort_explore.specs.Answer.{IfOver};

use fort_context_closure::{AtomLabels, SignedAtom};
use fort_explore::{ExploreFault, explore};
use fort_labels::ByRule;
use fort_lockstep::Dta;
use fort_terms::System;
use std::alloc::Global;

/// The table that accepts the normal forms of an index's rules, with at most so many states.
pub fn normal_forms(
    alloc: Global,
    system: &System,
    index: u32,
    cap: u32,
) -> Result<Dta, ExploreFault>
    requires { IsIndexOf system.now.rules index }
    ensures answer { IfOk result (λ t. IsAnswerTo (pattern_structure system.now)
        (Leaf (Normal index 0)) (OfTable (listed_table t))) }
    ensures listed { IfOk result IsListed }
    ensures over { IfErr result (λ e. IfOver e (HasTooManyBy system.now (AlikeAt system.now)
        (Leaf (Normal index 0)) cap)) }
{
    let normal = AtomLabels::nf(alloc, system, index)?;
    let signature = system.signature();
    let atom = SignedAtom {
        signature,
        labels: &normal,
    };
    explore(alloc, signature, &ByRule(&atom), cap)
}
