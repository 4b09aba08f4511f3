//! Views whose classes are renumbered, each of them once.
ghost use Rattle.std.specs.Prelude.{◌≡◌, ℕ, ◌+◌, ◌<◌, ◌≤◌, ◌^◌, List, [], ◌∷◌, ◌++◌, map, length, slice_index_or, IfOk, OnOk};
ghost use Rattle.fort_target_lists.specs.ClassLists.{leaders_in, classes_in};
ghost use Rattle.fort_tight_lists.specs.TightViews.{AreFirstsOf, read_at as read_at_lem, IsTightView, AreTightViews, IsTightAt};

use crate::slices::Renumbering;
use fort_target_lists::ClassView;
use fort_tuple_symbols::DigitSet;
use std::alloc::{AllocError, Global};

/// The views, and by what each is found: the number of the old view, and behind it the new numbers of its classes.
#[derive(Drop)]
pub(crate) struct TightViews {
    pub keys: DigitSet,
    pub views: Vec<ClassView>,
}

/// What stands in a list at each of these places, and 0 behind its end.
fn read_at(alloc: Global, list: &[u32], places: &[u32]) -> Result<Vec<u32>, AllocError>
    ensures { IfOk result (λ read. read.items ≡ read_at_lem list.now places.now) }
{
    let mut read = Vec::with_capacity(alloc, places.len())?;
    for place in places {
        read.push(match list.get(*place as usize) {
            Some(number) => *number,
            None => 0,
        })?;
    }
    Ok(read)
}

/// A view's number and the new numbers of its classes as one list.
fn key_of(alloc: Global, number: u32, numbers: &[u32]) -> Result<Vec<u32>, AllocError>
    ensures { IfOk result (λ key. key.items ≡ number ∷ numbers.now) }
{
    let mut key = Vec::new(alloc);
    key.push(number)?;
    key.extend_from_slice(numbers)?;
    Ok(key)
}

/// The view with its classes renumbered.
fn tight_view(
    alloc: Global,
    views: &[ClassView],
    number: u32,
    new: &Renumbering,
) -> Result<ClassView, AllocError>
    requires { number < length views.now }
    ensures { IfOk result (IsTightView views.now number new.now.numbers.items
        new.now.firsts.items) }
{
    let old = &views[number as usize];
    Ok(ClassView {
        classes: read_at(alloc, new.numbers.as_slice(), old.classes.as_slice())?,
        leaders: read_at(alloc, old.leaders.as_slice(), new.firsts.as_slice())?,
    })
}

impl TightViews {
    pub fn new(alloc: Global) -> TightViews
        ensures keys { result.keys ≡ [] }
        ensures views { result.views.items ≡ [] }
    {
        TightViews {
            keys: DigitSet::new(alloc),
            views: Vec::new(alloc),
        }
    }

    /// The number of the view with its classes renumbered, which is made where there is none.
    pub fn number_of(
        &mut self,
        alloc: Global,
        views: &[ClassView],
        number: u32,
        new: &Renumbering,
    ) -> Result<u32, AllocError>
        requires few { length self.old.views.items < 2 ^ 32 }
        requires number { number < length views.now }
        requires firsts { AreFirstsOf new.now.numbers.items new.now.firsts.items }
        requires tight { AreTightViews views.now self.old.keys self.old.views.items }
        ensures tight { OnOk result (AreTightViews views.now self.new.keys
            self.new.views.items) }
        ensures more { OnOk result ((more : List ClassView) × (self.new.views.items
            ≡ self.old.views.items ++ more) × (length more ≤ 1)) }
        ensures is { IfOk result (IsTightAt views.now self.new.views.items number
            new.now.numbers.items new.now.firsts.items) }
    {
        let key = key_of(alloc, number, new.numbers.as_slice())?;
        match self.keys.find(key.as_slice()) {
            Some(place) => Ok(place as u32),
            None => {
                let place = self.views.len();
                let view = tight_view(alloc, views, number, new)?;
                self.keys.push(key)?;
                self.views.push(view)?;
                Ok(place as u32)
            }
        }
    }
}
