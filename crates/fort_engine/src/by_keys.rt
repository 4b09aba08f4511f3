//! Tables by a formula's labels where these go by keys, reduced where tables are.
ghost use Rattle.std.specs.Prelude.{◌≡◌};
ghost use Rattle.fort_theory.specs.Cores as theory;
ghost use Rattle.fort_classes.specs.Keys.{GoesByEachKey};
ghost use Rattle.fort_label_keys.specs.ViewKeys.{keys_by};
ghost use Rattle.fort_engine.specs.Deciding.{IsDecision, AreLabelsFor};

use crate::answer::{Decided, Last};
use crate::explored::kept_table;
use crate::options::Options;
use fort_explore::{ExploreFault, Explored, explore_by_keys};
use fort_label_keys::LabelKeys;
use fort_labels::Labeller;
use fort_terms::{Signature, Sym, System};
use std::alloc::Global;

/// Whether some symbol has two arguments or more: then a table has many entries, most of which have the target of one whose children
/// are the first of their classes.
pub(crate) fn is_branching(signature: &Signature) -> bool {
    for number in 0..signature.len() {
        if signature.arity(Sym(number as u16)) > 1 {
            return true;
        }
    }
    false
}

/// Decides the formula that has these labels, which go by keys.
pub(crate) fn explored_by_keys<L: Labeller, K: LabelKeys>(
    alloc: Global,
    system: &System,
    labels: &L,
    keys: &K,
    options: &Options,
) -> Result<Decided, ExploreFault>
    requires serves { L.serves labels.now system.now.signature }
    requires goes { GoesByEachKey system.now.signature (L.column_count labels.now)
        (L.label labels.now) (keys_by (K.view keys.now) (K.key keys.now)) }
    requires width { K.word_count keys.now ≡ L.word_count labels.now }
    ensures { (f : theory.Core) → AreLabelsFor system.now options.now.reduces f
        (L.column_count labels.now) (L.label labels.now) (L.accepting labels.now)
        → IsDecision system.now options.now f result }
{
    let found = explore_by_keys(
        alloc,
        system.signature(),
        labels,
        keys,
        options.cap,
        options.lists,
    )?;
    let Explored { table, targets } = found;
    let (kept, classes) = kept_table(alloc, options, table)?;
    Ok(Decided {
        answer: Last::Auto(kept),
        counts: None,
        targets,
        classes,
    })
}
