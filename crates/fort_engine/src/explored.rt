//! Tables by a formula's labels, reduced where tables are.
ghost use Rattle.std.specs.Prelude.{◌≡◌, length, IfOk};
ghost use Rattle.fort_theory.specs.Patterns.{PatternSystem};
ghost use Rattle.fort_theory.specs.Cores as theory;
ghost use Rattle.fort_tables.specs.Tables.{IsListed, listed_table};
ghost use Rattle.fort_parts.specs.PartAnswers.{OfTable};
ghost use Rattle.fort_parts.specs.RightAnswers.{IsRightBy};
ghost use Rattle.fort_parts.specs.ReducedParts.{AlikeWith};
ghost use Rattle.fort_engine.specs.Kept.{IsRight};
ghost use Rattle.fort_engine.specs.Found.{IsKeptAs};
ghost use Rattle.fort_engine.specs.Deciding.{IsDecision, AreLabelsFor};

use crate::answer::{Decided, Last};
use crate::options::Options;
use fort_explore::{ExploreFault, Explored, explore_listed};
use fort_labels::Labeller;
use fort_lockstep::Dta;
use fort_reduce::reduce;
use fort_terms::System;
use std::alloc::{AllocError, Global};

/// A table as it is kept, and where it is reduced the class of each of its states.
pub(crate) fn kept_table(
    alloc: Global,
    options: &Options,
    table: Dta,
) -> Result<(Dta, Option<Vec<u32>>), AllocError>
    requires { IsListed table }
    ensures right { IfOk result (λ k. (system : PatternSystem) (f : theory.Core)
        → IsRightBy system (AlikeWith options.now.reduces system) f (OfTable (listed_table table))
        → IsRight system options.now f (OfTable (listed_table k.0))) }
    ensures kept { IfOk result (λ k. IsKeptAs options.now.reduces table k.1 k.0) }
    ensures finals { length table.finals ≡ length table.presences }
{
    // its clauses say that the table is lawful
    let _laws = table.entries();
    if !options.reduces {
        return Ok((table, None));
    }
    let (reduced, classes) = reduce(alloc, &table)?;
    Ok((reduced, Some(classes)))
}

/// Decides the formula that has these labels.
pub(crate) fn explored<L: Labeller>(
    alloc: Global,
    system: &System,
    labels: &L,
    options: &Options,
) -> Result<Decided, ExploreFault>
    requires { L.serves labels.now system.now.signature }
    ensures { (f : theory.Core) → AreLabelsFor system.now options.now.reduces f
        (L.column_count labels.now) (L.label labels.now) (L.accepting labels.now)
        → IsDecision system.now options.now f result }
{
    let found = explore_listed(
        alloc,
        system.signature(),
        labels,
        options.cap,
        options.lists,
    )?;
    let Explored { table, targets } = found;
    let (kept, classes) = kept_table(alloc, options, table)?;
    Ok(Decided {
        answer: Last::Auto(kept),
        counts: None,
        targets,
        classes,
    })
}
