//! The whole table, made from the targets of its leading entries.
ghost use Rattle.std.specs.Prelude.{◌≡◌, ℕ, ◌<◌, ◌≤◌, ◌^◌, List, [], map, length, slice_index, is_some, IfSome, IfOk, OnOk};
ghost use Rattle.fort_tables.specs.Tuples.{TupleSymbol};
ghost use Rattle.fort_tables.specs.Entries.{Entry, IsEntry};
ghost use Rattle.fort_tables.specs.Tables.{Made, IsComplete};
ghost use Rattle.fort_classes.specs.Keys.{GoesByEachKey, leaders_by};
ghost use Rattle.fort_classes.specs.LedTables.{led_target};
ghost use Rattle.fort_label_keys.specs.ViewKeys.{keys_by};
ghost use Rattle.fort_views.specs.SymbolViews.{AreViewsOf};
ghost use Rattle.fort_views.specs.Ranks.{AreRanks};
ghost use Rattle.fort_leading_tables.specs.Replays.{IsReplaying};
ghost use Rattle.fort_explore.specs.Exploring.{IsFound};
ghost use Rattle.fort_explore.specs.ListedTargets.{AreListedTargets};
ghost use Rattle.fort_explore.specs.LeadingLoops.{IsLeadingTable};
ghost use Rattle.fort_explore.specs.LedTargets.{AreLedTargets, AreTurnedKids};

use crate::table::{Explored, finals_of, list_for, list_target};
use fort_label_keys::LabelKeys;
use fort_labels::{Labeller, Rows};
use fort_leading_tables::{LeadingMaker, LeadingTargets};
use fort_lockstep::Maker;
use fort_terms::Signature;
use fort_tuple_symbols::Row;
use fort_views::{KeyedViews, ranks_of};
use std::alloc::{AllocError, Global};

/// What the target of each entry is read off.
#[derive(Drop)]
pub(crate) struct LedTargets<'a, K: LabelKeys> {
    pub views: KeyedViews<'a, K>,
    pub presences: Vec<u16>,
    /// Each state's rank among the states of its presence.
    pub ranks: Vec<u32>,
    /// The targets of the leading entries.
    pub targets: LeadingTargets,
}

/// The presence of each child.
fn kid_presences(presences: &[u16], kids: &[u32]) -> [u32; 8]
    requires few { length kids.now ≤ 8 }
    requires within { (j : ℕ) → j < length kids.now
        → slice_index kids.now j < length presences.now }
    ensures { (j : ℕ) → j < length kids.now
        → slice_index result j ≡ slice_index presences.now (slice_index kids.now j) }
{
    let mut wanted = [0u32; 8];
    for place in 0..kids.len() {
        wanted[place] = u32::from(presences[kids[place] as usize]);
    }
    wanted
}

/// The leader of each child, at its place under the symbol to which the views are turned.
fn kid_leaders<'a, K: LabelKeys>(views: &KeyedViews<'a, K>, ranks: &[u32], kids: &[u32]) -> [u32; 8]
    requires few { length kids.now ≤ 8 }
    requires turned { (labels : List (List ℕ)) × (f : TupleSymbol)
        × AreTurnedKids (K.view views.now.keys.now) (K.key views.now.keys.now) labels f
        views.now.views.views.items views.now.places ranks.now kids.now }
    ensures { (labels : List (List ℕ)) (f : TupleSymbol)
        → AreTurnedKids (K.view views.now.keys.now) (K.key views.now.keys.now) labels f
        views.now.views.views.items views.now.places ranks.now kids.now
        → (j : ℕ) → j < length kids.now → slice_index result j
        ≡ leaders_by (keys_by (K.view views.now.keys.now) (K.key views.now.keys.now)) labels f j
        (slice_index kids.now j) }
{
    let mut leaders = [0u32; 8];
    for place in 0..kids.len() {
        leaders[place] = views.leader_of(place, kids[place], ranks);
    }
    leaders
}

impl<'a, K: LabelKeys> LedTargets<'a, K> {
    /// What a maker of the leading entries has in the end, with views that have taken up no state.
    fn new(
        alloc: Global,
        sig: &Signature,
        columns: usize,
        keys: &'a K,
        maker: LeadingMaker,
    ) -> Result<LedTargets<'a, K>, AllocError>
        requires narrow { columns ≤ 16 }
        requires few { length maker.presences.items < 2 ^ 32 }
        requires within { (q : ℕ) → q < length maker.presences.items
            → slice_index maker.presences.items q < 2 ^ columns }
        ensures keys { IfOk result (λ led. led.views.keys.now ≡ keys.now) }
        ensures views { IfOk result (λ led. (labels : List (List ℕ)) → AreViewsOf
            (K.view keys.now) (K.key keys.now) sig.now columns labels 0 led.views.views) }
        ensures presences { IfOk result (λ led. led.presences.items ≡ maker.presences.items) }
        ensures ranks { IfOk result (λ led. AreRanks maker.presences.items led.ranks.items) }
        ensures targets { IfOk result (λ led. led.targets ≡ maker.targets) }
    {
        let LeadingMaker {
            presences,
            targets,
            ..
        } = maker;
        let ranks = ranks_of(alloc, columns, presences.as_slice())?;
        Ok(LedTargets {
            views: KeyedViews::new(alloc, sig, columns, keys),
            presences,
            ranks,
            targets,
        })
    }

    /// The leaders of an entry's children, for whose symbol the views take up all states.
    fn leaders(&mut self, rows: &Rows, row: &Row) -> Result<[u32; 8], AllocError>
        requires numbers { length rows.now.labels < 2 ^ 32 }
        requires width { rows.now.width ≡ K.word_count self.old.views.keys.now }
        requires known { (m : Made) × IsEntry m.signature m.columns m.presences row.now
            × AreLedTargets (K.view self.old.views.keys.now)
            (K.key self.old.views.keys.now) rows.now.labels m self.old.views.views
            self.old.presences.items self.old.ranks.items self.old.targets }
        ensures keys { self.new.views.keys ≡ self.old.views.keys }
        ensures targets { self.new.targets ≡ self.old.targets }
        ensures known { OnOk result ((m : Made)
            → IsEntry m.signature m.columns m.presences row.now
            → AreLedTargets (K.view self.old.views.keys.now)
            (K.key self.old.views.keys.now) rows.now.labels m self.old.views.views
            self.old.presences.items self.old.ranks.items self.old.targets
            → AreLedTargets (K.view self.new.views.keys.now)
            (K.key self.new.views.keys.now) rows.now.labels m self.new.views.views
            self.new.presences.items self.new.ranks.items self.new.targets) }
        ensures leaders { IfOk result (λ leaders. (m : Made)
            → IsEntry m.signature m.columns m.presences row.now
            → AreLedTargets (K.view self.old.views.keys.now)
            (K.key self.old.views.keys.now) rows.now.labels m self.old.views.views
            self.old.presences.items self.old.ranks.items self.old.targets
            → (j : ℕ) → j < length row.now.kids → slice_index leaders j
            ≡ leaders_by (keys_by (K.view self.old.views.keys.now)
            (K.key self.old.views.keys.now)) rows.now.labels row.now.symbol j
            (slice_index row.now.kids j)) }
    {
        let kids = row.kids();
        if kids.is_empty() {
            return Ok([0; 8]);
        }
        let wanted = kid_presences(self.presences.as_slice(), kids);
        let newest = rows.len() as u32 - 1;
        self.views
            .turn(rows, row.digits(), &wanted[..kids.len()], newest)?;
        Ok(kid_leaders(&self.views, self.ranks.as_slice(), kids))
    }

    /// The target of an entry, which is that of its led one.
    fn target(&mut self, rows: &Rows, row: &Row) -> Result<u32, AllocError>
        requires numbers { length rows.now.labels < 2 ^ 32 }
        requires width { rows.now.width ≡ K.word_count self.old.views.keys.now }
        requires known { (m : Made) × IsEntry m.signature m.columns m.presences row.now
            × AreLedTargets (K.view self.old.views.keys.now)
            (K.key self.old.views.keys.now) rows.now.labels m self.old.views.views
            self.old.presences.items self.old.ranks.items self.old.targets }
        ensures keys { self.new.views.keys ≡ self.old.views.keys }
        ensures known { OnOk result ((m : Made)
            → IsEntry m.signature m.columns m.presences row.now
            → AreLedTargets (K.view self.old.views.keys.now)
            (K.key self.old.views.keys.now) rows.now.labels m self.old.views.views
            self.old.presences.items self.old.ranks.items self.old.targets
            → AreLedTargets (K.view self.new.views.keys.now)
            (K.key self.new.views.keys.now) rows.now.labels m self.new.views.views
            self.new.presences.items self.new.ranks.items self.new.targets) }
        ensures target { IfOk result (λ q. (m : Made)
            → IsEntry m.signature m.columns m.presences row.now
            → AreLedTargets (K.view self.old.views.keys.now)
            (K.key self.old.views.keys.now) rows.now.labels m self.old.views.views
            self.old.presences.items self.old.ranks.items self.old.targets
            → q ≡ led_target (leaders_by (keys_by (K.view self.old.views.keys.now)
            (K.key self.old.views.keys.now)) rows.now.labels) m row.now) }
    {
        let leaders = self.leaders(rows, row)?;
        let count = row.kids().len();
        Ok(self.targets.target(row.digits(), &leaders[..count]))
    }
}

/// Gives each entry that comes due the target of its led one, and lists it.
pub(crate) fn give_whole<'a, K: LabelKeys>(
    maker: &mut Maker,
    targets: &mut Option<Vec<u32>>,
    led: &mut LedTargets<'a, K>,
    rows: &Rows,
) -> Result<(), AllocError>
    requires numbers { length rows.now.labels < 2 ^ 32 }
    requires width { rows.now.width ≡ K.word_count led.old.views.keys.now }
    requires listed { IfSome targets.old (λ l. l.items ≡ maker.old.targets) }
    requires known { (m : Made) × AreLedTargets (K.view led.old.views.keys.now)
        (K.key led.old.views.keys.now) rows.now.labels m led.old.views.views
        led.old.presences.items led.old.ranks.items led.old.targets
        × IsReplaying (leaders_by (keys_by (K.view led.old.views.keys.now)
        (K.key led.old.views.keys.now)) rows.now.labels) m maker.old }
    ensures replays { OnOk result ((m : Made) → AreLedTargets (K.view led.old.views.keys.now)
        (K.key led.old.views.keys.now) rows.now.labels m led.old.views.views
        led.old.presences.items led.old.ranks.items led.old.targets
        → IsReplaying (leaders_by (keys_by (K.view led.old.views.keys.now)
        (K.key led.old.views.keys.now)) rows.now.labels) m maker.old
        → IsReplaying (leaders_by (keys_by (K.view led.old.views.keys.now)
        (K.key led.old.views.keys.now)) rows.now.labels) m maker.new) }
    ensures complete { OnOk result (IsComplete maker.new) }
    ensures listed { OnOk result (IfSome targets.new (λ l. l.items ≡ maker.new.targets)) }
    ensures there { OnOk result (is_some targets.new ≡ is_some targets.old) }
{
    'entries: while let Some(row) = maker.due_row() {
        let target = led.target(rows, row)?;
        maker.give(target)?;
        list_target(targets, target)?;
    }
    Ok(())
}

/// The whole table, where each leading entry has its target.
pub(crate) fn whole_table<L: Labeller, K: LabelKeys>(
    alloc: Global,
    sig: &Signature,
    labeller: &L,
    keys: &K,
    maker: LeadingMaker,
    rows: &Rows,
    lists: bool,
) -> Result<Explored, AllocError>
    requires served { L.serves labeller.now sig.now }
    requires goes { GoesByEachKey sig.now (L.column_count labeller.now) (L.label labeller.now)
        (keys_by (K.view keys.now) (K.key keys.now)) }
    requires width { rows.now.width ≡ K.word_count keys.now }
    requires few { length rows.now.labels < 2 ^ 32 }
    requires table { (firsts : List Entry) × (cap : ℕ) × IsLeadingTable sig.now
        (L.column_count labeller.now) (L.label labeller.now)
        (keys_by (K.view keys.now) (K.key keys.now)) rows.now.labels firsts maker cap }
    ensures found { IfOk result (λ x. (firsts : List Entry) (cap : ℕ) → IsLeadingTable sig.now
        (L.column_count labeller.now) (L.label labeller.now)
        (keys_by (K.view keys.now) (K.key keys.now)) rows.now.labels firsts maker cap
        → IsFound sig.now (L.column_count labeller.now) (L.label labeller.now)
        (L.accepting labeller.now) cap x.table) }
    ensures targets { IfOk result (AreListedTargets lists) }
{
    let finals = finals_of(alloc, labeller, rows)?;
    let mut whole = Maker::new(alloc, sig, labeller.columns())?;
    let mut targets = list_for(alloc, lists);
    let mut led = LedTargets::new(alloc, sig, labeller.columns(), keys, maker)?;
    give_whole(&mut whole, &mut targets, &mut led, rows)?;
    let table = whole.finish(finals)?;
    Ok(Explored { table, targets })
}
