//! The whole table, its targets by the classes of its states.
ghost use Rattle.std.specs.Prelude.{ℕ, ◌≡◌, ◌+◌, ◌*◌, ◌<◌, ◌≤◌, ◌^◌, List, length, false, IfOk, IsTrue};
ghost use Rattle.fort_tables.specs.Entries.{Entry};
ghost use Rattle.fort_classes.specs.Keys.{GoesByEachKey};
ghost use Rattle.fort_label_keys.specs.ViewKeys.{keys_by};
ghost use Rattle.fort_explore.specs.Exploring.{IsFound};
ghost use Rattle.fort_explore.specs.ListedTargets.{AreListedTargets};
ghost use Rattle.fort_explore.specs.LeadingLoops.{IsLeadingTable};

use crate::table::{Explored, finals_of};
use fort_class_targets::class_list;
use fort_label_keys::LabelKeys;
use fort_labels::{Labeller, Rows};
use fort_leading_tables::LeadingMaker;
use fort_lockstep::Dta;
use fort_terms::Signature;
use fort_tight_lists::tightened;
use std::alloc::{AllocError, Global};

/// Whether the children's places under all tuple symbols over so many columns are few enough to be numbered.
pub(crate) fn are_few_places(sig: &Signature, columns: usize) -> bool
    requires { columns < 2 ^ 32 }
    ensures { IsTrue result → 8 * (length sig.now + 1) ^ columns ≤ 2 ^ 32 }
{
    match (sig.len() + 1).checked_pow(columns as u32) {
        Some(symbols) => symbols <= 1 << 29,
        None => false,
    }
}

/// `whole_table` without a list of the targets in the order of the entries: there is a target for each combination of classes, and
/// none for each entry.
pub(crate) fn classed_table<L: Labeller, K: LabelKeys>(
    alloc: Global,
    sig: &Signature,
    labeller: &L,
    keys: &K,
    maker: LeadingMaker,
    rows: &Rows,
) -> Result<Explored, AllocError>
    requires served { L.serves labeller.now sig.now }
    requires goes { GoesByEachKey sig.now (L.column_count labeller.now) (L.label labeller.now)
        (keys_by (K.view keys.now) (K.key keys.now)) }
    requires width { rows.now.width ≡ K.word_count keys.now }
    requires few { length rows.now.labels < 2 ^ 32 }
    requires places { 8 * (length sig.now + 1) ^ L.column_count labeller.now ≤ 2 ^ 32 }
    requires table { (firsts : List Entry) × (cap : ℕ) × IsLeadingTable sig.now
        (L.column_count labeller.now) (L.label labeller.now)
        (keys_by (K.view keys.now) (K.key keys.now)) rows.now.labels firsts maker cap }
    ensures found { IfOk result (λ x. (firsts : List Entry) (cap : ℕ) → IsLeadingTable sig.now
        (L.column_count labeller.now) (L.label labeller.now)
        (keys_by (K.view keys.now) (K.key keys.now)) rows.now.labels firsts maker cap
        → IsFound sig.now (L.column_count labeller.now) (L.label labeller.now)
        (L.accepting labeller.now) cap x.table) }
    ensures targets { IfOk result (AreListedTargets false) }
{
    let finals = finals_of(alloc, labeller, rows)?;
    let columns = labeller.columns();
    let LeadingMaker {
        presences,
        first_entries,
        targets,
        ..
    } = maker;
    let read = presences.as_slice();
    let list = class_list(alloc, sig, columns, rows, keys, read, &targets)?;
    let list = tightened(alloc, sig, columns, list)?;
    let own = sig.copy(alloc)?;
    let table = Dta::of_classes(alloc, own, columns, presences, first_entries, finals, list)?;
    Ok(Explored {
        table,
        targets: None,
    })
}
