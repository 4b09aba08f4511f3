//! Projections: some term in one column.
ghost use Rattle.std.specs.Prelude.{◌≡◌, ◌<◌, ◌-◌, ◌↔◌, IfOk, IsTrue};
ghost use Rattle.fort_tables.specs.Tuples.{Tuple, IsTuple};
ghost use Rattle.fort_tables.specs.LabelRules.{label_of};
ghost use Rattle.fort_tables.specs.Projections as projections;
ghost use Rattle.fort_tables.proofs.OperandFacts.{ArePure-prop};
ghost use Rattle.fort_target_lists.specs.TargetLists.{IsTargetListOf};
ghost use Rattle.fort_tables.specs.Agreement.{AgreeAtSome, HaveOneState};
ghost use Rattle.fort_tables.specs.OperationTruth.{TestsRelation, SomeCompletes, accepts as accepts_lem};

use crate::local::{project_accepts, project_label, project_width};
use crate::pure::pure_states;
use fort_labels::{LocalRule, Rows};
use fort_table::Table;
use fort_target_lists::TargetList;
use fort_tuple_symbols::Row;
use std::alloc::{AllocError, Global};

/// The labels of a projection: of a tuple of the other columns, the presence, the body's state with the column absent, and the set of
/// states that the terms of the column give.
#[derive(Drop)]
pub struct Project<'a, T: Table> {
    pub(crate) body: &'a T,
    pub(crate) column: usize,
    /// The body's states with this column alone present.
    pub(crate) alone: Vec<u32>,
    /// The body's targets in one list.
    pub(crate) list: &'a TargetList,
    ghost within: { column < (T.table body.now).columns },
    ghost another: { 1 < (T.table body.now).columns },
    ghost finds: { IsTargetListOf (T.table body.now) list.now },
    ghost pure: { projections.ArePure (T.table body.now) column alone.items } by { ArePure-prop (T.table body.now) column alone.items },
}

impl<'a, T: Table> Project<'a, T> {
    /// The projection of a body that has another column, by the list of the body's targets.
    pub fn new(
        alloc: Global,
        body: &'a T,
        list: &'a TargetList,
        column: usize,
    ) -> Result<Project<'a, T>, AllocError>
        requires list { IsTargetListOf (T.table body.now) list.now }
        requires column { column < (T.table body.now).columns }
        requires another { 1 < (T.table body.now).columns }
        ensures body { IfOk result (λ p. p.body.now ≡ body.now) }
        ensures column { IfOk result (λ p. p.column ≡ column) }
        ensures agree { IfOk result (λ _. (t u : Tuple)
            → IsTuple (T.table body.now).signature ((T.table body.now).columns - 1) t
            → IsTuple (T.table body.now).signature ((T.table body.now).columns - 1) u
            → (label_of (projections.project_rule (T.table body.now) column) t
            ≡ label_of (projections.project_rule (T.table body.now) column) u)
            ↔ AgreeAtSome (T.table body.now).signature column (HaveOneState (T.table body.now))
            t u) }
        ensures accepted { IfOk result (λ _. TestsRelation (T.table body.now).signature
            ((T.table body.now).columns - 1)
            (λ t. projections.project_accepts (T.table body.now) (label_of
            (projections.project_rule (T.table body.now) column) t))
            (SomeCompletes (T.table body.now).signature column
            (λ t. IsTrue (accepts_lem (T.table body.now) t)))) }
    {
        // its clause says that the table is lawful
        let _states = body.states();
        let alone = pure_states(alloc, body, column)?;
        Ok(Project {
            body,
            column,
            alone,
            list,
        })
    }
}

impl<'a, T: Table> LocalRule for Project<'a, T> {
    ghost use Rattle.std.specs.Prelude.{◌+◌, length, refl};
    ghost use Rattle.fort_tables.specs.BitRows.{words_for};
    ghost use Rattle.fort_tables.specs.Projections as projections;
    ghost use Rattle.fort_tables.proofs.ProjectLabels.{length-project_rule};

    ghost rule = { λ p. projections.project_rule (T.table p.body.now) p.column };

    ghost word_count = { λ p. words_for (length (T.table p.body.now).presences) + 2 };

    ghost accepting = { λ p. projections.project_accepts (T.table p.body.now) };

    ghost tells = { λ p f ws. refl };

    ghost has_words = { λ p f ws. length-project_rule (T.table p.body.now) p.column f ws };

    fn columns(&self) -> usize {
        self.body.columns() - 1
    }

    fn width(&self) -> usize {
        project_width(self.body.states() as usize)
    }

    fn step(&self, row: &Row, rows: &Rows, out: &mut [u64]) {
        project_label(
            self.body,
            self.column,
            &self.alone,
            self.list,
            row,
            rows,
            out,
        )
    }

    fn accepts(&self, words: &[u64]) -> bool {
        project_accepts(self.body, words)
    }
}
