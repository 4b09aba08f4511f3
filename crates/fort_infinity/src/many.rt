//! Infinitely many terms in one column.
ghost use Rattle.std.specs.Prelude.{◌≡◌, ◌<◌, ◌-◌, ◌↔◌, IsTrue, map, length};
ghost use Rattle.fort_tables.specs.Tuples.{Tuple, IsTuple};
ghost use Rattle.fort_tables.specs.LabelRules.{label_of};
ghost use Rattle.fort_tables.specs.Projections as projections;
ghost use Rattle.fort_tables.proofs.OperandFacts.{ArePure-prop};
ghost use Rattle.fort_tables.specs.Agreement.{HaveOneState};
ghost use Rattle.fort_tables.specs.OperationTruth.{TestsRelation, accepts as accepts_lem};
ghost use Rattle.fort_tables.specs.ManyLabels as labels;
ghost use Rattle.fort_tables.specs.ManyAgreement.{AgreeAtMany};
ghost use Rattle.fort_infinity.specs.ManyCounts.{is_many};

use crate::local::{many_accepts, many_label, many_width};
use fort_findings::Count;
use fort_labels::{LocalRule, Rows};
use fort_table::Table;
use fort_tuple_symbols::Row;

/// The labels of "infinitely many": of a tuple of the other columns, those of the projection, and the set of states that infinitely
/// many terms of the column give.
#[derive(Drop)]
pub struct Many<'a, T: Table> {
    body: &'a T,
    column: usize,
    /// The body's states with this column alone present, and their counts.
    alone: &'a [u32],
    counts: &'a [Count],
    ghost within: { column < (T.table body.now).columns },
    ghost another: { 1 < (T.table body.now).columns },
    ghost pure: { projections.ArePure (T.table body.now) column alone.now } by { ArePure-prop (T.table body.now) column alone.now },
    ghost sizes: { length counts.now ≡ length alone.now },
}

impl<'a, T: Table> Many<'a, T> {
    ghost use Rattle.fort_tables.specs.Counts.{KeepRules, count_at};
    ghost use Rattle.fort_findings.specs.FindingView.{as_count};

    /// "Infinitely many" of a body that has another column. `alone` are the body's pure states in the column; the counts beside them
    /// hold by their rules, whoever counted them. It takes no memory.
    pub fn new(body: &'a T, column: usize, alone: &'a [u32], counts: &'a [Count]) -> Many<'a, T>
        requires column { column < (T.table body.now).columns }
        requires another { 1 < (T.table body.now).columns }
        requires alone { projections.ArePure (T.table body.now) column alone.now }
        requires sizes { length counts.now ≡ length alone.now }
        requires rules { KeepRules (T.table body.now) column
            (count_at alone.now (map as_count counts.now)) }
        ensures body { result.body.now ≡ body.now }
        ensures column { result.column ≡ column }
        ensures alone { result.alone.now ≡ alone.now }
        ensures counts { result.counts.now ≡ counts.now }
        ensures tells { labels.TellsMany (T.table body.now) column (is_many alone.now counts.now) }
        ensures agree { (t u : Tuple)
            → IsTuple (T.table body.now).signature ((T.table body.now).columns - 1) t
            → IsTuple (T.table body.now).signature ((T.table body.now).columns - 1) u
            → (label_of (labels.many_rule (T.table body.now) column
            (is_many alone.now counts.now)) t ≡ label_of (labels.many_rule (T.table body.now)
            column (is_many alone.now counts.now)) u)
            ↔ AgreeAtMany (T.table body.now).signature column (HaveOneState (T.table body.now))
            t u }
        ensures accepted { TestsRelation (T.table body.now).signature
            ((T.table body.now).columns - 1)
            (λ t. labels.many_accepts (T.table body.now) (label_of (labels.many_rule
            (T.table body.now) column (is_many alone.now counts.now)) t))
            (labels.ManyComplete (T.table body.now).signature column
            (λ t. IsTrue (accepts_lem (T.table body.now) t))) }
    {
        // its clause says that the table is lawful
        let _states = body.states();
        Many {
            body,
            column,
            alone,
            counts,
        }
    }
}

impl<'a, T: Table> LocalRule for Many<'a, T> {
    ghost use Rattle.std.specs.Prelude.{◌+◌, ◌*◌, length, refl};
    ghost use Rattle.fort_tables.specs.BitRows.{words_for};
    ghost use Rattle.fort_tables.specs.ManyLabels as labels;
    ghost use Rattle.fort_tables.proofs.ManyLabelLaws.{length-many_rule};
    ghost use Rattle.fort_infinity.specs.ManyCounts.{is_many};

    ghost rule = { λ m. labels.many_rule (T.table m.body.now) m.column (is_many m.alone.now m.counts.now) };

    ghost word_count = { λ m. words_for (2 * length (T.table m.body.now).presences) + 2 };

    ghost accepting = { λ m. labels.many_accepts (T.table m.body.now) };

    ghost tells = { λ m f ws. refl };

    ghost has_words = { λ m f ws. length-many_rule (T.table m.body.now) m.column (is_many m.alone.now m.counts.now) f ws };

    fn columns(&self) -> usize {
        self.body.columns() - 1
    }

    fn width(&self) -> usize {
        many_width(self.body.states() as usize)
    }

    fn step(&self, row: &Row, rows: &Rows, out: &mut [u64]) {
        many_label(
            self.body,
            self.column,
            self.alone,
            self.counts,
            row,
            rows,
            out,
        )
    }

    fn accepts(&self, words: &[u64]) -> bool {
        many_accepts(self.body, words)
    }
}
