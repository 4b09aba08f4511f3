//! The exploration of all labels by leading entries.
ghost use Rattle.std.specs.Prelude.{◌≡◌, ◌≤◌, true, false, length, IfOk, OnOk};
ghost use Rattle.fort_leading_tables.specs.LeadingMaking.{turned};
ghost use Rattle.fort_explore.specs.Exploring.{IsOver};
ghost use Rattle.fort_explore.specs.LeadingLoops.{IsLeadingLoop, IsLeadingEnd};

use crate::found::{Found, place_of};
use fort_labels::Labeller;
use fort_leading_tables::LeadingMaker;
use fort_leading_walk::SymbolLeaders;
use fort_lockstep::Steps;
use fort_terms::Signature;
use std::alloc::{AllocError, Global};
use std::sync::ledger::Ledger;

/// Gives each leading entry that comes due the number of its label. It ends with true where none is due, and with false as soon as the
/// labels are more than the cap.
pub(crate) fn give_leading<G: Ledger, L: Labeller, V: SymbolLeaders>(
    alloc: Global,
    sig: &Signature,
    labeller: &L,
    cap: u32,
    maker: &mut LeadingMaker,
    leaders: &mut V,
    found: &mut Found,
    memo: &mut L::Memo,
    out: &mut [u64],
    steps: &mut Steps<G>,
) -> Result<bool, AllocError>
    requires served { L.serves labeller.now sig.now }
    requires exploring { IsLeadingLoop sig.now (L.column_count labeller.now)
        (L.label labeller.now) (turned (V.keys leaders.old) (V.lists leaders.old)
        (V.knows leaders.old)) found.old.labels.labels found.old.firsts maker.old }
    requires same { found.old.numbers ≡ found.old.labels.labels }
    requires width { found.old.labels.width ≡ L.word_count labeller.now }
    requires asked { found.old.labels.width ≡ V.word_count leaders.old }
    requires few { length found.old.labels.labels ≤ cap }
    requires kept { L.fits labeller.now memo.old }
    requires room { length out.old ≡ L.word_count labeller.now }
    ensures keys { V.keys leaders.new ≡ V.keys leaders.old }
    ensures whole { IfOk result (λ b. b ≡ true → IsLeadingEnd sig.now
        (L.column_count labeller.now) (L.label labeller.now) (turned (V.keys leaders.new)
        (V.lists leaders.new) (V.knows leaders.new)) found.new.labels.labels found.new.firsts
        maker.new cap) }
    ensures over { IfOk result (λ b. b ≡ false → IsOver sig.now (L.column_count labeller.now)
        (L.label labeller.now) found.new.firsts cap) }
    ensures width { OnOk result (found.new.labels.width ≡ L.word_count labeller.now) }
    ensures grows { steps.old ≤ steps.new }
{
    'entries: loop {
        // its clause bounds the length
        let _count = maker.targets.targets.len();
        match maker.due_row() {
            None => return Ok(true),
            Some(row) => {
                let q = place_of(alloc, labeller, found, row, memo, out, steps)?;
                if found.labels.len() > cap as usize {
                    return Ok(false);
                }
                maker.give(alloc, sig, q as u32, leaders, &found.labels)?;
            }
        }
    }
}
