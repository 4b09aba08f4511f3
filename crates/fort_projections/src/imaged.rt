//! The label of an entry by images of one child's states.
ghost use Rattle.std.specs.Prelude.{◌≡◌, ◌<◌, ◌+◌, ◌-◌, ◌||◌, ◌&&◌, ℕ, [], true, length, slice_index, slice_index_or};
ghost use Rattle.fort_tables.specs.BitRows.{words_for};
ghost use Rattle.fort_tables.specs.Labels.{IsOverLabels};
ghost use Rattle.fort_tables.specs.LabelRules.{label_of, entry_label};
ghost use Rattle.fort_tables.specs.Projections.{ArePure, has_state, project_rule, some_below};
ghost use Rattle.fort_target_lists.specs.LabelLists.{labels_at};
ghost use Rattle.fort_projections.specs.Choices.{IsSearched};
ghost use Rattle.fort_target_lists.specs.LookUps.{FindsAbove};
ghost use Rattle.fort_projections.specs.Scopes.{some_gives};
ghost use Rattle.fort_projections.specs.ImageFacts.{AreImages, IsKeyOf, with_state};

use crate::choices::next_in_set;
use crate::images::Images;
use crate::projection::{clear, mark, write_front};
use crate::scope::{Chosen, Scope};
use fort_labels::Rows;
use fort_table::Table;
use fort_target_lists::Finder;
use fort_tuple_symbols::Row;

/// Writes the label of an entry of the projection, by the images that are kept or as `write_label` does.
pub(crate) fn write_kept<T: Table>(
    body: &T,
    finder: &Finder<'_>,
    column: usize,
    alone: &[u32],
    row: &Row,
    rows: &Rows,
    images: &mut Images,
    out: &mut [u64],
)
    requires column { column < (T.table body.now).columns }
    requires finder { FindsAbove (T.table body.now) row.now.symbol column finder.now }
    requires alone { ArePure (T.table body.now) column alone.now }
    requires over { IsOverLabels (T.table body.now).signature ((T.table body.now).columns - 1)
        (label_of (project_rule (T.table body.now) column)) rows.now.labels row.now }
    requires images { AreImages (T.table body.now) column images.old }
    requires room { length out.old ≡ words_for (length (T.table body.now).presences) + 2 }
    ensures images { AreImages (T.table body.now) column images.new }
    ensures label { out.new ≡ entry_label (project_rule (T.table body.now) column)
        rows.now.labels row.now }
{
    // its clause says that the table is lawful
    let _states = body.states();
    write_front(body, finder, column, row, rows, out);
    if images.turn_to(row, rows) {
        let scope = Scope::Without(images.place);
        mark(body, finder, column, alone, row, rows, scope, out);
        mark_set(body, finder, column, alone, row, rows, images, out);
    } else {
        mark(body, finder, column, alone, row, rows, Scope::All, out);
    }
}

/// Marks the states that the symbols with a child at the images' place give.
fn mark_set<T: Table>(
    body: &T,
    finder: &Finder<'_>,
    column: usize,
    alone: &[u32],
    row: &Row,
    rows: &Rows,
    images: &mut Images,
    out: &mut [u64],
)
    requires searched { IsSearched (T.table body.now) column rows.now.labels row.now }
    requires finder { FindsAbove (T.table body.now) row.now.symbol column finder.now }
    requires alone { ArePure (T.table body.now) column alone.now }
    requires images { AreImages (T.table body.now) column images.old }
    requires key { IsKeyOf images.old row.now.symbol (labels_at rows.now.labels row.now.kids) }
    requires room { length out.old ≡ words_for (length (T.table body.now).presences) + 2 }
    ensures images { AreImages (T.table body.now) column images.new }
    ensures first { slice_index out.new 0 ≡ slice_index out.old 0 }
    ensures second { slice_index out.new 1 ≡ slice_index out.old 1 }
    ensures marked { (q : ℕ) → has_state out.new q ≡ (some_below
        (length (T.table body.now).presences) (λ s. has_state (slice_index_or (labels_at
        rows.now.labels row.now.kids) images.old.place []) s && some_gives (T.table body.now)
        column row.now.symbol (labels_at rows.now.labels row.now.kids)
        (with_state images.old.place s) q) || has_state out.old q) }
{
    // its clause says that the table is lawful
    let _states = body.states();
    let kids = row.kids();
    let set = rows.label(kids[images.place]);
    let mut from = 0;
    'states: while let Some(s) = next_in_set(set, from) {
        mark_state(
            body, finder, column, alone, row, rows, s as u32, images, out,
        );
        from = s as u32 + 1;
    }
}

/// Marks what these symbols give where that child is in this state alone.
fn mark_state<T: Table>(
    body: &T,
    finder: &Finder<'_>,
    column: usize,
    alone: &[u32],
    row: &Row,
    rows: &Rows,
    state: u32,
    images: &mut Images,
    out: &mut [u64],
)
    requires searched { IsSearched (T.table body.now) column rows.now.labels row.now }
    requires finder { FindsAbove (T.table body.now) row.now.symbol column finder.now }
    requires alone { ArePure (T.table body.now) column alone.now }
    requires images { AreImages (T.table body.now) column images.old }
    requires key { IsKeyOf images.old row.now.symbol (labels_at rows.now.labels row.now.kids) }
    requires small { state < length (T.table body.now).presences }
    requires in_set { has_state (slice_index_or (labels_at rows.now.labels row.now.kids)
        images.old.place []) state ≡ true }
    requires room { length out.old ≡ words_for (length (T.table body.now).presences) + 2 }
    ensures images { AreImages (T.table body.now) column images.new }
    ensures key { images.new.key ≡ images.old.key }
    ensures labels { images.new.labels ≡ images.old.labels }
    ensures place { images.new.place ≡ images.old.place }
    ensures first { slice_index out.new 0 ≡ slice_index out.old 0 }
    ensures second { slice_index out.new 1 ≡ slice_index out.old 1 }
    ensures marked { (q : ℕ) → has_state out.new q ≡ (some_gives (T.table body.now) column
        row.now.symbol (labels_at rows.now.labels row.now.kids)
        (with_state images.old.place state) q || has_state out.old q) }
{
    // its clause says that the table is lawful
    let _states = body.states();
    let number = images.slots[state as usize];
    if number == 0 {
        let scope = Scope::With(Chosen {
            place: images.place,
            state,
        });
        let image = images.image.as_mut_slice();
        clear(image);
        mark(body, finder, column, alone, row, rows, scope, image);
        join(&images.image, out);
        images.note(state);
    } else {
        join(images.images.label(number - 1), out);
    }
}

/// Marks the states of a set.
fn join(set: &[u64], out: &mut [u64])
    requires { length set.now ≡ length out.old }
    ensures first { slice_index out.new 0 ≡ slice_index out.old 0 }
    ensures second { slice_index out.new 1 ≡ slice_index out.old 1 }
    ensures marked { (q : ℕ) → has_state out.new q ≡ (has_state set.now q || has_state out.old q) }
{
    for i in 2..set.len() {
        out[i] |= set[i];
    }
}
