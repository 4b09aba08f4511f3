//! A table's list whose classes are as few as its targets allow.
ghost use Rattle.std.specs.Prelude.{◌≡◌, ◌+◌, ◌*◌, ◌<◌, ◌≤◌, ◌^◌, length, IfOk};
ghost use Rattle.fort_tables.specs.Tables as tables;
ghost use Rattle.fort_target_lists.specs.ClassLists.{IsClassListOf};
ghost use Rattle.fort_target_lists.specs.ClassLeaders.{HasOwnLeaders};
ghost use Rattle.fort_tight_lists.specs.TightLists.{IsListedOver};

use crate::parts::TightParts;
use fort_target_lists::ClassList;
use fort_terms::Signature;
use std::alloc::{AllocError, Global};

/// The same table's list, in which the classes of a place that have the same targets, whatever the other children's classes are, are
/// one; and views that have become equal are one.
pub fn tightened(
    alloc: Global,
    sig: &Signature,
    columns: usize,
    list: ClassList,
) -> Result<ClassList, AllocError>
    requires narrow { columns ≤ 16 }
    requires few { length list.ranks.items < 2 ^ 32 }
    requires places { 8 * (length sig.now + 1) ^ columns ≤ 2 ^ 32 }
    requires listed { (body : tables.Table) × IsListedOver sig.now columns body list }
    ensures list { IfOk result (λ l. (body : tables.Table)
        → IsListedOver sig.now columns body list → IsClassListOf body l) }
    ensures leaders { IfOk result (λ l. (body : tables.Table)
        → IsListedOver sig.now columns body list → HasOwnLeaders body l) }
{
    let made = TightParts::of_all(alloc, sig, columns, &list)?;
    let ClassList { base, ranks, .. } = list;
    let TightParts {
        views,
        starts,
        numbers,
        blocks,
    } = made;
    Ok(ClassList {
        base,
        ranks,
        views: views.views,
        starts,
        numbers,
        blocks,
    })
}
