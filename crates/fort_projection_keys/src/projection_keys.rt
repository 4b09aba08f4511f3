//! What the labels of a projection ask of a child's label.
ghost use Rattle.std.specs.Prelude.{◌≡◌, ◌<◌, ◌-◌, false};
ghost use Rattle.fort_tables.specs.LabelRules.{label_of};
ghost use Rattle.fort_tables.specs.Projections.{project_rule};
ghost use Rattle.fort_classes.specs.Keys.{GoesByEachKey};
ghost use Rattle.fort_label_keys.specs.ViewKeys.{keys_by};
ghost use Rattle.fort_projection_keys.specs.ProjectionViews.{projection_view, key_in_view};

use crate::parts::write_key;
use crate::places::write_view;
use fort_label_keys::LabelKeys;
use fort_table_classes::TableClasses;
use fort_tuple_symbols::TupleSym;
use std::alloc::AllocError;

/// Keys for the labels of a projection: at each symbol in the column the class of the body's state with the column absent, or where the
/// symbol has such a child, the classes of the states of the label's set.
#[derive(Drop)]
pub struct ProjectionKeys<'a, T: TableClasses> {
    body: &'a T,
    column: usize,
    ghost within: { column < (T.table body.now).columns },
}

impl<'a, T: TableClasses> ProjectionKeys<'a, T> {
    pub fn new(body: &'a T, column: usize) -> ProjectionKeys<'a, T>
        requires { column < (T.table body.now).columns }
        ensures lent { result.body.now ≡ body.now }
        ensures column { result.column ≡ column }
        ensures goes { GoesByEachKey (T.table body.now).signature
            ((T.table body.now).columns - 1) (label_of (project_rule (T.table body.now) column))
            (keys_by (projection_view (T.view_number body.now) (T.table body.now) column)
            (key_in_view (T.table body.now) (T.leader_in body.now) column false)) }
    {
        // its clause says that the table is lawful, and each state reached
        let _states = body.states();
        ProjectionKeys { body, column }
    }
}

impl<'a, T: TableClasses> LabelKeys for ProjectionKeys<'a, T> {
    ghost use Rattle.std.specs.Prelude.{◌+◌, length, false};
    ghost use Rattle.fort_tables.specs.BitRows.{words_for};
    ghost use Rattle.fort_projection_keys.specs.ProjectionViews.{projection_view, key_in_view};

    ghost view = { λ k. projection_view (T.view_number k.body.now) (T.table k.body.now) k.column };

    ghost key = { λ k. key_in_view (T.table k.body.now) (T.leader_in k.body.now) k.column false };

    ghost word_count = { λ k. words_for (length (T.table k.body.now).presences) + 2 };

    fn write_view(
        &self,
        symbol: &TupleSym,
        place: usize,
        words: &mut Vec<u64>,
    ) -> Result<(), AllocError> {
        write_view(self.body, self.column, symbol, place, words)
    }

    fn write_key(
        &self,
        seen: &[u64],
        label: &[u64],
        words: &mut Vec<u64>,
    ) -> Result<(), AllocError> {
        // its clause bounds the number of states
        let _states = self.body.states();
        write_key(self.body, self.column, seen, false, label, words)
    }
}
