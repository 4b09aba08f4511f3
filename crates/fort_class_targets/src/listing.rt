//! The list of a table's targets by classes, from the targets of its leading entries.
ghost use Rattle.std.specs.Prelude.{◌≡◌, ℕ, ◌+◌, ◌*◌, ◌^◌, ◌<◌, ◌≤◌, List, map, length, slice_index, IfOk};
ghost use Rattle.fort_tables.specs.Tables as tables;
ghost use Rattle.fort_tables.specs.Labels.{first_word};
ghost use Rattle.fort_classes.specs.Keys.{leaders_by};
ghost use Rattle.fort_classes.specs.LedTables.{IsLeadingComplete};
ghost use Rattle.fort_label_keys.specs.ViewKeys.{keys_by};
ghost use Rattle.fort_target_lists.specs.ClassLists.{IsClassListOf};
ghost use Rattle.fort_target_lists.specs.ClassLeaders.{HasOwnLeaders};
ghost use Rattle.fort_leading_tables.specs.EntryNumbers.{AreTargetsOf};
ghost use Rattle.fort_class_targets.specs.LedBodies.{IsLedBody};

use crate::symbols::symbol_blocks;
use crate::taken::class_views;
use crate::view_numbers::ViewNumbers;
use fort_label_keys::LabelKeys;
use fort_labels::Rows;
use fort_leading_tables::LeadingTargets;
use fort_target_lists::ClassList;
use fort_terms::Signature;
use fort_views::{Views, ranks_of};
use std::alloc::{AllocError, Global};

/// The list of the table whose entries have the targets of their led ones. Its classes are those of the keys of the states' labels; the
/// presences are those of these labels.
pub fn class_list<K: LabelKeys>(
    alloc: Global,
    sig: &Signature,
    columns: usize,
    rows: &Rows,
    keys: &K,
    presences: &[u16],
    targets: &LeadingTargets,
) -> Result<ClassList, AllocError>
    requires narrow { columns ≤ 16 }
    requires width { rows.now.width ≡ K.word_count keys.now }
    requires few { length rows.now.labels < 2 ^ 32 }
    requires presences { presences.now ≡ map first_word rows.now.labels }
    requires within { (q : ℕ) → q < length presences.now
        → slice_index presences.now q < 2 ^ columns }
    requires places { 8 * (length sig.now + 1) ^ columns ≤ 2 ^ 32 }
    requires told { (m : tables.Made) × (body : tables.Table)
        × IsLedBody sig.now columns (leaders_by (keys_by (K.view keys.now) (K.key keys.now))
        rows.now.labels) m body
        × IsLeadingComplete (leaders_by (keys_by (K.view keys.now) (K.key keys.now))
        rows.now.labels) m
        × (m.presences ≡ map first_word rows.now.labels)
        × AreTargetsOf m.columns m.entries m.targets targets.now }
    ensures list { IfOk result (λ l. (m : tables.Made) (body : tables.Table)
        → IsLedBody sig.now columns (leaders_by (keys_by (K.view keys.now) (K.key keys.now))
        rows.now.labels) m body
        → IsLeadingComplete (leaders_by (keys_by (K.view keys.now) (K.key keys.now))
        rows.now.labels) m
        → m.presences ≡ map first_word rows.now.labels
        → AreTargetsOf m.columns m.entries m.targets targets.now
        → IsClassListOf body l) }
    ensures leaders { IfOk result (λ l. (m : tables.Made) (body : tables.Table)
        → IsLedBody sig.now columns (leaders_by (keys_by (K.view keys.now) (K.key keys.now))
        rows.now.labels) m body
        → m.presences ≡ map first_word rows.now.labels
        → HasOwnLeaders body l) }
{
    let ranks = ranks_of(alloc, columns, presences)?;
    let base = sig.len() + 1;
    let count = base.pow(columns as u32);
    let mut views = Views::new(alloc, sig, columns);
    let numbers = ViewNumbers::of_all(alloc, sig, columns, keys, count, &mut views)?;
    let taken = class_views(alloc, keys, rows, &mut views.views)?;
    let blocks = symbol_blocks(alloc, sig, columns, taken.as_slice(), &numbers, targets)?;
    Ok(ClassList {
        base,
        ranks,
        views: taken,
        starts: numbers.starts,
        numbers: numbers.numbers,
        blocks,
    })
}
