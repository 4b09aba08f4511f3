//! The rule of a projection, over pure states that are handed in.
ghost use Rattle.std.specs.Prelude.{◌≡◌, ◌<◌};
ghost use Rattle.fort_tables.specs.Projections as projections;
ghost use Rattle.fort_tables.proofs.OperandFacts.{ArePure-prop};
ghost use Rattle.fort_target_lists.specs.TargetLists.{IsTargetListOf};

use crate::part_rule::PartRule;
use fort_labels::{LocalRule, Rows};
use fort_projections::local::{project_accepts, project_label, project_width};
use fort_table::Table;
use fort_target_lists::TargetList;
use fort_tuple_symbols::Row;

/// The labels of a projection: of a tuple of the other columns, the presence, the body's state with the column absent, and the set of
/// states that the terms of the column give.
#[derive(Drop)]
pub struct Projected<'a, T: Table> {
    body: &'a T,
    column: usize,
    /// The body's states with this column alone present.
    alone: &'a [u32],
    /// The body's targets in one list.
    list: &'a TargetList,
    ghost within: { column < (T.table body.now).columns },
    ghost another: { 1 < (T.table body.now).columns },
    ghost pure: { projections.ArePure (T.table body.now) column alone.now } by { ArePure-prop (T.table body.now) column alone.now },
    ghost listed: { IsTargetListOf (T.table body.now) list.now },
}

impl<'a, T: Table> Projected<'a, T> {
    /// The projection of a body that has another column, by the list of the body's targets. It takes no memory.
    pub fn new(
        body: &'a T,
        column: usize,
        alone: &'a [u32],
        list: &'a TargetList,
    ) -> Projected<'a, T>
        requires column { column < (T.table body.now).columns }
        requires another { 1 < (T.table body.now).columns }
        requires pure { projections.ArePure (T.table body.now) column alone.now }
        requires list { IsTargetListOf (T.table body.now) list.now }
        ensures body { result.body.now ≡ body.now }
        ensures column { result.column ≡ column }
    {
        Projected {
            body,
            column,
            alone,
            list,
        }
    }
}

impl<'a, T: Table> LocalRule for Projected<'a, T> {
    ghost use Rattle.std.specs.Prelude.{◌+◌, length, refl};
    ghost use Rattle.fort_tables.specs.BitRows.{words_for};
    ghost use Rattle.fort_tables.specs.Projections as projections;
    ghost use Rattle.fort_tables.proofs.ProjectLabels.{length-project_rule};

    ghost rule = { λ p. projections.project_rule (T.table p.body.now) p.column };

    ghost word_count = { λ p. words_for (length (T.table p.body.now).presences) + 2 };

    ghost accepting = { λ p. projections.project_accepts (T.table p.body.now) };

    ghost tells = { λ p f ws. refl };

    ghost has_words = { λ p f ws. length-project_rule (T.table p.body.now) p.column f ws };

    fn columns(&self) -> usize {
        self.body.columns() - 1
    }

    fn width(&self) -> usize {
        project_width(self.body.states() as usize)
    }

    fn step(&self, row: &Row, rows: &Rows, out: &mut [u64]) {
        project_label(
            self.body,
            self.column,
            self.alone,
            self.list,
            row,
            rows,
            out,
        )
    }

    fn accepts(&self, words: &[u64]) -> bool {
        project_accepts(self.body, words)
    }
}

impl<'a, T: Table> PartRule for Projected<'a, T> {}
