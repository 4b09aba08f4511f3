//! The views of a class list.
ghost use Rattle.std.specs.Prelude.{◌≡◌, ℕ, ◌<◌, ◌^◌, List, map, length, IfOk};
ghost use Rattle.fort_views.specs.SymbolViews.{sight, IsFresh, AreFresh};
ghost use Rattle.fort_class_targets.specs.TakenViews.{IsClassView, AreClassViews};

use fort_label_keys::LabelKeys;
use fort_labels::Rows;
use fort_target_lists::ClassView;
use fort_views::View;
use std::alloc::{AllocError, Global};
use std::mem;

/// The classes and the leaders of a view, after it took up all states; the list is for their keys alone.
fn class_view<K: LabelKeys>(
    alloc: Global,
    keys: &K,
    rows: &Rows,
    view: &mut View,
    key: &mut Vec<u64>,
) -> Result<ClassView, AllocError>
    requires width { rows.now.width ≡ K.word_count keys.now }
    requires few { length rows.now.labels < 2 ^ 32 }
    requires fresh { IsFresh (K.view keys.now) view.old }
    ensures { IfOk result (IsClassView (K.key keys.now) rows.now.labels (sight view.old)) }
{
    view.take_up(keys, rows, rows.len() as u32, key)?;
    Ok(ClassView {
        classes: mem::replace(&mut view.classes, Vec::new(alloc)),
        leaders: mem::replace(&mut view.leaders, Vec::new(alloc)),
    })
}

/// Those of all these views.
pub(crate) fn class_views<K: LabelKeys>(
    alloc: Global,
    keys: &K,
    rows: &Rows,
    views: &mut Vec<View>,
) -> Result<Vec<ClassView>, AllocError>
    requires width { rows.now.width ≡ K.word_count keys.now }
    requires few { length rows.now.labels < 2 ^ 32 }
    requires fresh { AreFresh (K.view keys.now) views.old.items }
    ensures { IfOk result (λ taken. AreClassViews (K.key keys.now) rows.now.labels
        (map sight views.old.items) taken.items) }
{
    let mut key = Vec::new(alloc);
    let mut taken = Vec::with_capacity(alloc, views.len())?;
    for number in 0..views.len() {
        taken.push(class_view(alloc, keys, rows, &mut views[number], &mut key)?)?;
    }
    Ok(taken)
}
