//! The exploration of all labels, where keys tell which children give one label.
ghost use Rattle.std.specs.Prelude.{◌≡◌, ℕ, ◌+◌, ◌<◌, ◌≤◌, ◌^◌, List, [], length, IfSome, IfNone, IfOk, IfErr, OnOk};
ghost use Rattle.fort_tables.specs.Entries.{Entry, AreNodes, tuples_of};
ghost use Rattle.fort_tables.specs.Tables.{IsListed, listed_table};
ghost use Rattle.fort_tables.specs.Labels.{HaveLabels, HasMoreLabels, IsTableOf};
ghost use Rattle.fort_tables.specs.LabelRules.{IsTableBy};
ghost use Rattle.fort_classes.specs.Keys.{GoesByEachKey};
ghost use Rattle.fort_label_keys.specs.ViewKeys.{keys_by};
ghost use Rattle.fort_explore.specs.Exploring.{IsOver, IsFound};
ghost use Rattle.fort_explore.specs.LeadingLoops.{IsLeadingTable};
ghost use Rattle.fort_explore.specs.Answer.{IfOver};
ghost use Rattle.fort_explore.specs.ListedTargets.{AreListedTargets};

use crate::classed::{are_few_places, classed_table};
use crate::found::Found;
use crate::leading::give_leading;
use crate::table::{ExploreFault, Explored};
use crate::whole::whole_table;
use fort_label_keys::LabelKeys;
use fort_labels::{Labeller, Rows};
use fort_leading_tables::LeadingMaker;
use fort_leading_walk::SymbolLeaders;
use fort_lockstep::Steps;
use fort_terms::Signature;
use fort_views::KeyedViews;
use std::alloc::{AllocError, Global};
use std::marker::Brand;
use std::sync::ledger::{Blank, Ledger};

/// `explore_listed` for a labeller whose labels go by keys. It asks the labeller for the labels of the leading entries alone, those
/// whose children are the first states of their presence and key; all others have the target of such a one.
pub fn explore_by_keys<L: Labeller, K: LabelKeys>(
    alloc: Global,
    sig: &Signature,
    labeller: &L,
    keys: &K,
    cap: u32,
    lists: bool,
) -> Result<Explored, ExploreFault>
    requires served { L.serves labeller.now sig.now }
    requires goes { GoesByEachKey sig.now (L.column_count labeller.now) (L.label labeller.now)
        (keys_by (K.view keys.now) (K.key keys.now)) }
    requires width { K.word_count keys.now ≡ L.word_count labeller.now }
    ensures ok { IfOk result (λ x. IsTableOf sig.now (L.column_count labeller.now)
        (L.label labeller.now) (L.accepting labeller.now) (listed_table x.table)) }
    ensures table { IfOk result (λ x. IsTableBy sig.now (L.column_count labeller.now)
        (L.label labeller.now) (L.accepting labeller.now) (listed_table x.table)) }
    ensures listed { IfOk result (λ x. IsListed x.table) }
    ensures targets { IfOk result (AreListedTargets lists) }
    ensures few { OnOk result (HasMoreLabels sig.now (L.column_count labeller.now)
        (L.label labeller.now) cap → ⊥) }
    ensures over { IfErr result (λ e. IfOver e (λ tuples. HaveLabels sig.now
        (L.column_count labeller.now) (L.label labeller.now) (cap + 1) (tuples_of tuples))) }
    ensures nodes { IfErr result (λ e. IfOver e (λ tuples. AreNodes sig.now
        (L.column_count labeller.now) tuples)) }
{
    explore_leading::<Brand, L, K>(alloc, sig, labeller, keys, cap, lists, Blank::new(1))
}

/// The same in a ledger that nobody reads.
fn explore_leading<G: Ledger, L: Labeller, K: LabelKeys>(
    alloc: Global,
    sig: &Signature,
    labeller: &L,
    keys: &K,
    cap: u32,
    lists: bool,
    blank: Blank,
) -> Result<Explored, ExploreFault>
    requires name { blank.name ≡ G.name }
    requires parts { blank.parts ≡ G.parts }
    requires one { blank.parts ≡ 1 }
    requires served { L.serves labeller.now sig.now }
    requires goes { GoesByEachKey sig.now (L.column_count labeller.now) (L.label labeller.now)
        (keys_by (K.view keys.now) (K.key keys.now)) }
    requires width { K.word_count keys.now ≡ L.word_count labeller.now }
    ensures found { IfOk result (λ x. IsFound sig.now (L.column_count labeller.now)
        (L.label labeller.now) (L.accepting labeller.now) cap x.table) }
    ensures targets { IfOk result (AreListedTargets lists) }
    ensures over { IfErr result (λ e. IfOver e (λ tuples. IsOver sig.now
        (L.column_count labeller.now) (L.label labeller.now) tuples cap)) }
{
    let mut steps = Steps::<G>::new(blank);
    let mut found = Found::new(alloc, labeller.width())?;
    let mut views = KeyedViews::new(alloc, sig, labeller.columns(), keys);
    let made = make_leading(
        alloc, sig, labeller, cap, &mut views, &mut found, &mut steps,
    )?;
    match made {
        None => Err(ExploreFault::Over(found.take_firsts(alloc))),
        Some(maker) => {
            let explored = table_of(alloc, sig, labeller, keys, maker, &found.labels, lists)?;
            Ok(explored)
        }
    }
}

/// The whole table, where each leading entry has its target; its targets are listed where that is asked for.
fn table_of<L: Labeller, K: LabelKeys>(
    alloc: Global,
    sig: &Signature,
    labeller: &L,
    keys: &K,
    maker: LeadingMaker,
    rows: &Rows,
    lists: bool,
) -> Result<Explored, AllocError>
    requires served { L.serves labeller.now sig.now }
    requires goes { GoesByEachKey sig.now (L.column_count labeller.now) (L.label labeller.now)
        (keys_by (K.view keys.now) (K.key keys.now)) }
    requires width { rows.now.width ≡ K.word_count keys.now }
    requires few { length rows.now.labels < 2 ^ 32 }
    requires table { (firsts : List Entry) × (cap : ℕ) × IsLeadingTable sig.now
        (L.column_count labeller.now) (L.label labeller.now)
        (keys_by (K.view keys.now) (K.key keys.now)) rows.now.labels firsts maker cap }
    ensures found { IfOk result (λ x. (firsts : List Entry) (cap : ℕ) → IsLeadingTable sig.now
        (L.column_count labeller.now) (L.label labeller.now)
        (keys_by (K.view keys.now) (K.key keys.now)) rows.now.labels firsts maker cap
        → IsFound sig.now (L.column_count labeller.now) (L.label labeller.now)
        (L.accepting labeller.now) cap x.table) }
    ensures targets { IfOk result (AreListedTargets lists) }
{
    if lists {
        whole_table(alloc, sig, labeller, keys, maker, rows, lists)
    } else if are_few_places(sig, labeller.columns()) {
        classed_table(alloc, sig, labeller, keys, maker, rows)
    } else {
        whole_table(alloc, sig, labeller, keys, maker, rows, lists)
    }
}

/// Makes a table by its leading entries, from its beginning; none where the labels are more than the cap.
fn make_leading<G: Ledger, L: Labeller, V: SymbolLeaders>(
    alloc: Global,
    sig: &Signature,
    labeller: &L,
    cap: u32,
    leaders: &mut V,
    found: &mut Found,
    steps: &mut Steps<G>,
) -> Result<Option<LeadingMaker>, AllocError>
    requires served { L.serves labeller.now sig.now }
    requires known { V.knows leaders.old sig.now (L.column_count labeller.now) [] 0 }
    requires words { V.word_count leaders.old ≡ L.word_count labeller.now }
    requires width { found.old.labels.width ≡ L.word_count labeller.now }
    requires labels { found.old.labels.labels ≡ [] }
    requires numbers { found.old.numbers ≡ [] }
    requires firsts { found.old.firsts ≡ [] }
    ensures whole { IfOk result (λ made. IfSome made (λ maker. IsLeadingTable sig.now
        (L.column_count labeller.now) (L.label labeller.now) (V.keys leaders.old)
        found.new.labels.labels found.new.firsts maker cap)) }
    ensures width { OnOk result (found.new.labels.width ≡ L.word_count labeller.now) }
    ensures over { IfOk result (λ made. IfNone made (IsOver sig.now
        (L.column_count labeller.now) (L.label labeller.now) found.new.firsts cap)) }
{
    let mut maker = LeadingMaker::new(alloc, sig, labeller.columns(), leaders, &found.labels)?;
    let mut words = vec![in alloc; 0u64; labeller.width()]?;
    let mut memo = labeller.memo(alloc)?;
    let out = words.as_mut_slice();
    let is_whole = give_leading(
        alloc, sig, labeller, cap, &mut maker, leaders, found, &mut memo, out, steps,
    )?;
    if is_whole { Ok(Some(maker)) } else { Ok(None) }
}
