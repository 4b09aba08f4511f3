//! The exploration of all labels.
ghost use Rattle.std.specs.Prelude.{◌≡◌, ℕ, ◌+◌, ◌<◌, ◌≤◌, ◌^◌, List, [], ◌∷◌, ◌++◌, Bool, true, false, length, is_some, IfSome, IfOk, IfErr, OnOk};
ghost use Rattle.fort_theory.specs.Signatures as theory;
ghost use Rattle.fort_tables.specs.Entries.{AreNodes, tuples_of};
ghost use Rattle.fort_tables.specs.Tables.{IsComplete, IsListed, finished, listed_table};
ghost use Rattle.fort_tables.specs.Labels.{IsLabel, AreLabels, HaveLabels, HasMoreLabels, IsTableOf, final_by};
ghost use Rattle.fort_tables.specs.LabelRules.{IsTableBy};
ghost use Rattle.fort_explore.specs.Exploring.{AreLabelFinals, IsExploring, IsWhole, IsOver, IsFound};
ghost use Rattle.fort_explore.specs.Answer.{IfOver};
ghost use Rattle.fort_explore.specs.ListedTargets.{AreListedTargets};

use crate::found::{Found, place_of};
use fort_labels::{Labeller, Rows};
use fort_lockstep::{Dta, Maker, Steps};
use fort_table::Dag;
use fort_terms::Signature;
use std::alloc::{AllocError, Global};
use std::marker::Brand;
use std::sync::ledger::{Blank, Ledger};

/// Why there is no table.
#[derive(Drop)]
pub enum ExploreFault {
    /// Want of memory.
    Memory,
    /// There are more labels than the cap: one more tuple than it, their labels all different.
    Over(Dag),
}

/// A table, and its targets in the order of its entries where they were asked for.
#[derive(Drop)]
pub struct Explored {
    pub table: Dta,
    pub targets: Option<Vec<u32>>,
}

/// A table in the making, and the labels that were found; the targets so far, where they are listed.
struct Exploration {
    maker: Maker,
    found: Found,
    targets: Option<Vec<u32>>,
}

impl Drop for Exploration {
    /// A function of its own: where an exploration is let go, one call is proved, and not one for each part of the table.
    fn drop(self) {
        let Exploration {
            maker: _maker,
            found: _found,
            targets: _targets,
        } = self;
    }
}

impl From<AllocError> for ExploreFault {
    ghost use Rattle.std.specs.Prelude.{◌≡◌};
    ghost use Rattle.fort_explore.specs.declared.table.ExploreFault.TheVariants.{Memory};

    ghost from_gives = { λ _ r. r ≡ Memory };

    fn from(_e: AllocError) -> ExploreFault {
        ExploreFault::Memory
    }
}

/// Whether a label has all columns present and is accepted.
fn is_final<L: Labeller>(labeller: &L, label: &[u64]) -> bool
    requires { (sig : theory.Signature) × L.serves labeller.now sig
        × IsLabel sig (L.column_count labeller.now) (L.label labeller.now) label.now }
    ensures { result ≡ final_by (L.column_count labeller.now) (L.accepting labeller.now)
        label.now }
{
    let full = (1u64 << labeller.columns()) - 1;
    if label.first().copied().unwrap_or(0) != full {
        return false;
    }
    labeller.accepts(label)
}

/// Which states are accepting.
pub(crate) fn finals_of<L: Labeller>(
    alloc: Global,
    labeller: &L,
    labels: &Rows,
) -> Result<Vec<bool>, AllocError>
    requires labels { (sig : theory.Signature) × L.serves labeller.now sig
        × AreLabels sig (L.column_count labeller.now) (L.label labeller.now) labels.now.labels }
    requires few { length labels.now.labels < 2 ^ 32 }
    ensures { IfOk result (λ v. AreLabelFinals (L.column_count labeller.now)
        (L.accepting labeller.now) labels.now.labels v.items) }
{
    let mut finals = Vec::new(alloc);
    for q in 0..labels.len() {
        finals.push(is_final(labeller, labels.label(q as u32)))?;
    }
    Ok(finals)
}

/// The table of all optional tuples, whose states are exactly the labels.
pub fn explore<L: Labeller>(
    alloc: Global,
    sig: &Signature,
    labeller: &L,
    cap: u32,
) -> Result<Dta, ExploreFault>
    requires { L.serves labeller.now sig.now }
    ensures ok { IfOk result (λ t. IsTableOf sig.now (L.column_count labeller.now)
        (L.label labeller.now) (L.accepting labeller.now) (listed_table t)) }
    ensures table { IfOk result (λ t. IsTableBy sig.now (L.column_count labeller.now)
        (L.label labeller.now) (L.accepting labeller.now) (listed_table t)) }
    ensures listed { IfOk result IsListed }
    ensures few { OnOk result (HasMoreLabels sig.now (L.column_count labeller.now)
        (L.label labeller.now) cap → ⊥) }
    ensures over { IfErr result (λ e. IfOver e (λ tuples. HaveLabels sig.now
        (L.column_count labeller.now) (L.label labeller.now) (cap + 1) (tuples_of tuples))) }
    ensures nodes { IfErr result (λ e. IfOver e (λ tuples. AreNodes sig.now
        (L.column_count labeller.now) tuples)) }
{
    let Explored {
        table,
        targets: _none,
    } = explore_listed(alloc, sig, labeller, cap, false)?;
    Ok(table)
}

/// `explore`, with the table's targets where they are asked for: the list takes four bytes for each entry.
pub fn explore_listed<L: Labeller>(
    alloc: Global,
    sig: &Signature,
    labeller: &L,
    cap: u32,
    lists: bool,
) -> Result<Explored, ExploreFault>
    requires { L.serves labeller.now sig.now }
    ensures ok { IfOk result (λ x. IsTableOf sig.now (L.column_count labeller.now)
        (L.label labeller.now) (L.accepting labeller.now) (listed_table x.table)) }
    ensures table { IfOk result (λ x. IsTableBy sig.now (L.column_count labeller.now)
        (L.label labeller.now) (L.accepting labeller.now) (listed_table x.table)) }
    ensures listed { IfOk result (λ x. IsListed x.table) }
    ensures targets { IfOk result (AreListedTargets lists) }
    ensures few { OnOk result (HasMoreLabels sig.now (L.column_count labeller.now)
        (L.label labeller.now) cap → ⊥) }
    ensures over { IfErr result (λ e. IfOver e (λ tuples. HaveLabels sig.now
        (L.column_count labeller.now) (L.label labeller.now) (cap + 1) (tuples_of tuples))) }
    ensures nodes { IfErr result (λ e. IfOver e (λ tuples. AreNodes sig.now
        (L.column_count labeller.now) tuples)) }
{
    explore_by::<Brand, L>(alloc, sig, labeller, cap, lists, Blank::new(1))
}

/// The same in a ledger that nobody reads.
fn explore_by<G: Ledger, L: Labeller>(
    alloc: Global,
    sig: &Signature,
    labeller: &L,
    cap: u32,
    lists: bool,
    blank: Blank,
) -> Result<Explored, ExploreFault>
    requires name { blank.name ≡ G.name }
    requires parts { blank.parts ≡ G.parts }
    requires one { blank.parts ≡ 1 }
    requires served { L.serves labeller.now sig.now }
    ensures found { IfOk result (λ x. IsFound sig.now (L.column_count labeller.now)
        (L.label labeller.now) (L.accepting labeller.now) cap x.table) }
    ensures targets { IfOk result (AreListedTargets lists) }
    ensures over { IfErr result (λ e. IfOver e (λ tuples. IsOver sig.now
        (L.column_count labeller.now) (L.label labeller.now) tuples cap)) }
{
    let mut steps = Steps::<G>::new(blank);
    explore_from_none(alloc, sig, labeller, cap, lists, &mut steps)
}

/// An empty list, where one is asked for.
pub(crate) fn list_for(alloc: Global, lists: bool) -> Option<Vec<u32>>
    ensures there { is_some result ≡ lists }
    ensures empty { IfSome result (λ l. l.items ≡ []) }
{
    if lists { Some(Vec::new(alloc)) } else { None }
}

/// Puts one more target into the list, where there is one.
pub(crate) fn list_target(targets: &mut Option<Vec<u32>>, target: u32) -> Result<(), AllocError>
    ensures list { OnOk result ((ts : List ℕ) → IfSome targets.old (λ l. l.items ≡ ts)
        → IfSome targets.new (λ l. l.items ≡ ts ++ target ∷ [])) }
    ensures there { OnOk result (is_some targets.new ≡ is_some targets.old) }
{
    match targets {
        Some(list) => {
            list.push(target)?;
            Ok(())
        }
        None => Ok(()),
    }
}

/// Gives each entry that comes due the number of its label, and lists it. It ends with true where none is due, and with false as soon
/// as the labels are more than the cap.
fn give_targets<G: Ledger, L: Labeller>(
    alloc: Global,
    labeller: &L,
    cap: u32,
    maker: &mut Maker,
    targets: &mut Option<Vec<u32>>,
    found: &mut Found,
    memo: &mut L::Memo,
    out: &mut [u64],
    steps: &mut Steps<G>,
) -> Result<bool, AllocError>
    requires exploring { (sig : theory.Signature) × L.serves labeller.now sig
        × IsExploring sig (L.column_count labeller.now) (L.label labeller.now) maker.old
        found.old.firsts found.old.labels.labels }
    requires listed { IfSome targets.old (λ l. l.items ≡ maker.old.targets) }
    requires same { found.old.numbers ≡ found.old.labels.labels }
    requires width { found.old.labels.width ≡ L.word_count labeller.now }
    requires few { length found.old.labels.labels ≤ cap }
    requires kept { L.fits labeller.now memo.old }
    requires room { length out.old ≡ L.word_count labeller.now }
    ensures whole { IfOk result (λ b. (sig : theory.Signature) → L.serves labeller.now sig
        → IsExploring sig (L.column_count labeller.now) (L.label labeller.now) maker.old
        found.old.firsts found.old.labels.labels → b ≡ true
        → IsWhole sig (L.column_count labeller.now) (L.label labeller.now) maker.new
        found.new.firsts found.new.labels.labels cap) }
    ensures over { IfOk result (λ b. (sig : theory.Signature) → L.serves labeller.now sig
        → IsExploring sig (L.column_count labeller.now) (L.label labeller.now) maker.old
        found.old.firsts found.old.labels.labels → b ≡ false
        → IsOver sig (L.column_count labeller.now) (L.label labeller.now) found.new.firsts cap) }
    ensures listed { OnOk result (IfSome targets.new (λ l. l.items ≡ maker.new.targets)) }
    ensures there { OnOk result (is_some targets.new ≡ is_some targets.old) }
    ensures steps { IfOk result (λ b. b ≡ true → steps.new + length maker.old.targets
        ≡ steps.old + length maker.new.targets) }
    ensures grows { steps.old ≤ steps.new }
{
    'entries: while let Some(row) = maker.due_row() {
        let q = place_of(alloc, labeller, found, row, memo, out, steps)?;
        if found.labels.len() > cap as usize {
            return Ok(false);
        }
        maker.give(q as u32)?;
        list_target(targets, q as u32)?;
    }
    Ok(true)
}

impl Exploration {
    /// `give_targets` with the room that it wants.
    fn give_all<G: Ledger, L: Labeller>(
        &mut self,
        alloc: Global,
        labeller: &L,
        cap: u32,
        steps: &mut Steps<G>,
    ) -> Result<bool, AllocError>
        requires served { L.serves labeller.now self.old.maker.signature }
        requires exploring { IsExploring self.old.maker.signature (L.column_count labeller.now)
            (L.label labeller.now) self.old.maker self.old.found.firsts
            self.old.found.labels.labels }
        requires listed { IfSome self.old.targets (λ l. l.items ≡ self.old.maker.targets) }
        requires same { self.old.found.numbers ≡ self.old.found.labels.labels }
        requires width { self.old.found.labels.width ≡ L.word_count labeller.now }
        requires few { length self.old.found.labels.labels ≤ cap }
        ensures whole { IfOk result (λ b. b ≡ true → IsWhole self.old.maker.signature
            (L.column_count labeller.now) (L.label labeller.now) self.new.maker
            self.new.found.firsts self.new.found.labels.labels cap) }
        ensures over { IfOk result (λ b. b ≡ false → IsOver self.old.maker.signature
            (L.column_count labeller.now) (L.label labeller.now) self.new.found.firsts cap) }
        ensures listed { OnOk result (IfSome self.new.targets (λ l. l.items
            ≡ self.new.maker.targets)) }
        ensures there { OnOk result (is_some self.new.targets ≡ is_some self.old.targets) }
        ensures steps { IfOk result (λ b. b ≡ true → steps.new + length self.old.maker.targets
            ≡ steps.old + length self.new.maker.targets) }
        ensures grows { steps.old ≤ steps.new }
    {
        let mut words = vec![in alloc; 0u64; labeller.width()]?;
        let mut memo = labeller.memo(alloc)?;
        let out = words.as_mut_slice();
        give_targets(
            alloc,
            labeller,
            cap,
            &mut self.maker,
            &mut self.targets,
            &mut self.found,
            &mut memo,
            out,
            steps,
        )
    }

    /// The table, where each entry has its target.
    fn finish<L: Labeller>(self, alloc: Global, labeller: &L) -> Result<Explored, AllocError>
        requires exploring { (sig : theory.Signature) × L.serves labeller.now sig
            × IsExploring sig (L.column_count labeller.now) (L.label labeller.now) self.maker
            self.found.firsts self.found.labels.labels }
        requires complete { IsComplete self.maker }
        requires few { length self.found.labels.labels < 2 ^ 32 }
        requires targets { IfSome self.targets (λ l. l.items ≡ self.maker.targets) }
        ensures finals { IfOk result (λ x. AreLabelFinals (L.column_count labeller.now)
            (L.accepting labeller.now) self.found.labels.labels x.table.finals) }
        ensures made { IfOk result (λ x. x.table ≡ finished self.maker x.table.finals) }
        ensures listed { IfOk result (λ x. IsListed x.table) }
        ensures targets { IfOk result (AreListedTargets (is_some self.targets)) }
    {
        let finals = finals_of(alloc, labeller, &self.found.labels)?;
        let Exploration {
            maker,
            found: _found,
            targets,
        } = self;
        let table = maker.finish(finals)?;
        Ok(Explored { table, targets })
    }

    /// The table from where the exploration stands.
    fn explore_on<G: Ledger, L: Labeller>(
        mut self,
        alloc: Global,
        labeller: &L,
        cap: u32,
        steps: &mut Steps<G>,
    ) -> Result<Explored, ExploreFault>
        requires served { L.serves labeller.now self.maker.signature }
        requires exploring { IsExploring self.maker.signature (L.column_count labeller.now)
            (L.label labeller.now) self.maker self.found.firsts self.found.labels.labels }
        requires listed { IfSome self.targets (λ l. l.items ≡ self.maker.targets) }
        requires same { self.found.numbers ≡ self.found.labels.labels }
        requires width { self.found.labels.width ≡ L.word_count labeller.now }
        requires few { length self.found.labels.labels ≤ cap }
        ensures table { IfOk result (λ x. IsFound self.maker.signature
            (L.column_count labeller.now) (L.label labeller.now) (L.accepting labeller.now) cap
            x.table) }
        ensures targets { IfOk result (AreListedTargets (is_some self.targets)) }
        ensures over { IfErr result (λ e. IfOver e (λ tuples. IsOver self.maker.signature
            (L.column_count labeller.now) (L.label labeller.now) tuples cap)) }
        ensures steps { IfOk result (λ x. steps.new + length self.maker.targets
            ≡ steps.old + length x.table.entries) }
        ensures grows { steps.old ≤ steps.new }
    {
        let is_whole = self.give_all(alloc, labeller, cap, steps)?;
        if !is_whole {
            return Err(ExploreFault::Over(self.found.take_firsts(alloc)));
        }
        let explored = self.finish(alloc, labeller)?;
        Ok(explored)
    }
}

/// The exploration from its beginning.
fn explore_from_none<G: Ledger, L: Labeller>(
    alloc: Global,
    sig: &Signature,
    labeller: &L,
    cap: u32,
    lists: bool,
    steps: &mut Steps<G>,
) -> Result<Explored, ExploreFault>
    requires { L.serves labeller.now sig.now }
    ensures found { IfOk result (λ x. IsFound sig.now (L.column_count labeller.now)
        (L.label labeller.now) (L.accepting labeller.now) cap x.table) }
    ensures targets { IfOk result (AreListedTargets lists) }
    ensures over { IfErr result (λ e. IfOver e (λ tuples. IsOver sig.now
        (L.column_count labeller.now) (L.label labeller.now) tuples cap)) }
    ensures steps { IfOk result (λ x. steps.new ≡ steps.old + length x.table.entries) }
    ensures grows { steps.old ≤ steps.new }
{
    let found = Found::new(alloc, labeller.width())?;
    let maker = Maker::new(alloc, sig, labeller.columns())?;
    let targets = list_for(alloc, lists);
    let exploration = Exploration {
        maker,
        found,
        targets,
    };
    exploration.explore_on(alloc, labeller, cap, steps)
}

/// `explore`, counting the calls of the labeller's step: one for each entry of the table. After an error none is taken back.
pub fn explore_counted<G: Ledger, L: Labeller>(
    alloc: Global,
    sig: &Signature,
    labeller: &L,
    cap: u32,
    steps: &mut Steps<G>,
) -> Result<Dta, ExploreFault>
    requires { L.serves labeller.now sig.now }
    ensures ok { IfOk result (λ t. IsTableOf sig.now (L.column_count labeller.now)
        (L.label labeller.now) (L.accepting labeller.now) (listed_table t)) }
    ensures table { IfOk result (λ t. IsTableBy sig.now (L.column_count labeller.now)
        (L.label labeller.now) (L.accepting labeller.now) (listed_table t)) }
    ensures listed { IfOk result IsListed }
    ensures few { OnOk result (HasMoreLabels sig.now (L.column_count labeller.now)
        (L.label labeller.now) cap → ⊥) }
    ensures over { IfErr result (λ e. IfOver e (λ tuples. HaveLabels sig.now
        (L.column_count labeller.now) (L.label labeller.now) (cap + 1) (tuples_of tuples))) }
    ensures nodes { IfErr result (λ e. IfOver e (λ tuples. AreNodes sig.now
        (L.column_count labeller.now) tuples)) }
    ensures steps { IfOk result (λ t. steps.new ≡ steps.old + length t.entries) }
    ensures grows { steps.old ≤ steps.new }
{
    let Explored {
        table,
        targets: _none,
    } = explore_from_none(alloc, sig, labeller, cap, false, steps)?;
    Ok(table)
}
