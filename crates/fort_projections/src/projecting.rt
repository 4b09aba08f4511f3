//! Projections as labellers.
use crate::imaged::write_kept;
use crate::images::Images;
use crate::local::{project_accepts, project_width};
use crate::project::Project;
use fort_labels::{Labeller, Rows};
use fort_table::Table;
use fort_target_lists::Finder;
use fort_tuple_symbols::Row;
use std::alloc::{AllocError, Global};

/// The labeller of a projection: it gives a tuple the label of the projection's rule. It keeps what entries give that differ in one
/// child alone.
#[derive(Drop)]
pub struct Projecting<'a, T: Table>(pub &'a Project<'a, T>);

impl<'a, T: Table> Labeller for Projecting<'a, T> {
    type Memo = Images;

    ghost use Rattle.std.specs.Prelude.{◌≡◌, ◌+◌, length, refl};
    ghost use Rattle.fort_tables.specs.BitRows.{words_for};
    ghost use Rattle.fort_tables.specs.LabelRules.{label_of};
    ghost use Rattle.fort_tables.proofs.LabelRuleLaws.{TellsPresence-rule, HasWidth-rule};
    ghost use Rattle.fort_tables.specs.Projections.{project_rule, project_accepts as project_accepts_lem};
    ghost use Rattle.fort_tables.proofs.ProjectLabels.{length-project_rule};
    ghost use Rattle.fort_projections.specs.ImageFacts.{AreImages};

    ghost serves = { λ p sig. sig ≡ (T.table p.0.now.body.now).signature };

    ghost column_count = { λ p. (project_rule (T.table p.0.now.body.now) p.0.now.column).columns };

    ghost word_count = { λ p. words_for (length (T.table p.0.now.body.now).presences) + 2 };

    ghost label = { λ p. label_of (project_rule (T.table p.0.now.body.now) p.0.now.column) };

    ghost accepting = { λ p. project_accepts_lem (T.table p.0.now.body.now) };

    ghost fits = { λ p. AreImages (T.table p.0.now.body.now) p.0.now.column };

    ghost tells_presence = { λ p sig _. TellsPresence-rule sig
        (project_rule (T.table p.0.now.body.now) p.0.now.column) (λ f ws. refl) };

    ghost has_width = { λ p sig _. HasWidth-rule sig
        (project_rule (T.table p.0.now.body.now) p.0.now.column)
        (words_for (length (T.table p.0.now.body.now).presences) + 2)
        (length-project_rule (T.table p.0.now.body.now) p.0.now.column) };

    fn columns(&self) -> usize {
        self.0.body.columns() - 1
    }

    fn width(&self) -> usize {
        project_width(self.0.body.states() as usize)
    }

    fn memo(&self, alloc: Global) -> Result<Images, AllocError> {
        let states = self.0.body.states() as usize;
        Images::new(
            alloc,
            self.0.body.signature(),
            states,
            project_width(states),
        )
    }

    fn step(&self, row: &Row, rows: &Rows, images: &mut Images, out: &mut [u64]) {
        let project = self.0;
        // its clause says that the table is lawful
        let _states = project.body.states();
        let finder = Finder::of(project.body, project.list, row, project.column);
        write_kept(
            project.body,
            &finder,
            project.column,
            &project.alone,
            row,
            rows,
            images,
            out,
        )
    }

    fn accepts(&self, words: &[u64]) -> bool {
        project_accepts(self.0.body, words)
    }
}
