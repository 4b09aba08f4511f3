//! The search through the choices of states for the children under a symbol in the projected column.
ghost use Rattle.std.specs.Prelude.{◌≡◌, ◌<◌, ◌≤◌, ◌+◌, ◌||◌, ◌==◌, ◌^◌, ◌&&◌, ◌++◌, ◌∷◌, [], ℕ, Bool, false, true, take, length, slice_index, slice_index_or, IfSome, IfNone, IsTrue};
ghost use Rattle.fort_tables.specs.Tuples.{symbol_kids};
ghost use Rattle.fort_tables.specs.Entries.{entry};
ghost use Rattle.fort_tables.specs.BitRows.{words_for};
ghost use Rattle.fort_tables.proofs.TableLaws.{IsKidState};
ghost use Rattle.fort_tables.specs.Projections.{absent_state, has_state, some_below};
ghost use Rattle.fort_projections.specs.Choices.{IsNext, IsNextChoice, AreNoChoices, AreChoices, may_choose, is_reachable, symbol_under};
ghost use Rattle.fort_projections.specs.Strides.{IsReadable, read_at};
ghost use Rattle.fort_target_lists.specs.Places.{number_of};
ghost use Rattle.fort_target_lists.specs.Flats.{IsFlatOf};
ghost use Rattle.fort_target_lists.specs.LookUps.{FindsUnder};
ghost use Rattle.fort_target_lists.specs.LabelLists.{labels_at};
ghost use Rattle.fort_projections.specs.Scopes.{may_in, IsScoped};

use crate::bits::next_bit;
use crate::marks::{Stride, mark_set};
use crate::pure::next_pure;
use crate::scope::Scope;
use fort_labels::{Rows, set_bit};
use fort_table::Table;
use fort_target_lists::{FlatTargets, LookUp};
use fort_terms::Sym;
use fort_tuple_symbols::Row;

/// The state with the column absent, where it is `from` or a later one.
pub fn next_absent(label: &[u64], from: u32) -> Option<usize>
    ensures some { IfSome result (IsNext (λ k. absent_state label.now == k) from) }
    ensures none { IfNone result ((k : ℕ) → from ≤ k → (absent_state label.now == k) ≡ false) }
{
    let state = label.get(1).copied().unwrap_or(0);
    if from as u64 <= state {
        Some(state as usize)
    } else {
        None
    }
}

/// The first state of a label's set from `from` on.
pub fn next_in_set(label: &[u64], from: u32) -> Option<usize>
    requires { length label.now < 2 ^ 32 }
    ensures some { IfSome result (IsNext (has_state label.now) from) }
    ensures none { IfNone result ((k : ℕ) → from ≤ k → has_state label.now k ≡ false) }
{
    match next_bit(label, 128 + from as usize) {
        Some(bit) => Some(bit - 128),
        None => None,
    }
}

/// This state, where it is `from` or a later one.
fn next_one(state: u32, from: u32) -> Option<usize>
    ensures some { IfSome result (IsNext (λ k. state == k) from) }
    ensures none { IfNone result ((k : ℕ) → from ≤ k → (state == k) ≡ false) }
{
    if from <= state {
        Some(state as usize)
    } else {
        None
    }
}

/// A symbol in the projected column above an entry over labels of the projection.
#[derive(Drop)]
pub(crate) struct Choices<'a, T: Table> {
    pub(crate) body: &'a T,
    pub(crate) column: usize,
    pub(crate) alone: &'a [u32],
    pub(crate) row: &'a Row,
    pub(crate) rows: &'a Rows,
    pub(crate) sym: Sym,
    pub(crate) arity: usize,
    pub(crate) scope: Scope,
}

impl<'a, T: Table> Choices<'a, T> {
    /// The first state from `from` on that may stand as child `j`, whatever the scope.
    fn next_own(&self, j: usize, from: u32) -> Option<usize>
        requires choices { AreChoices (T.table self.now.body.now) self.now.column
            self.now.alone.now self.now.rows.now.labels self.now.row.now self.now.sym.0
            (symbol_under self.now.row.now self.now.column self.now.sym.0) self.now.arity }
        requires child { j < symbol_kids (T.table self.now.body.now).signature
            (symbol_under self.now.row.now self.now.column self.now.sym.0) }
        ensures some { IfSome result (IsNextChoice (T.table self.now.body.now)
            (may_choose (T.table self.now.body.now) self.now.column self.now.rows.now.labels
            self.now.row.now self.now.arity j) from) }
        ensures none { IfNone result (AreNoChoices (T.table self.now.body.now)
            (may_choose (T.table self.now.body.now) self.now.column self.now.rows.now.labels
            self.now.row.now self.now.arity j) from) }
    {
        // its clause says that the table is lawful
        let _states = self.body.states();
        let kids = self.row.kids();
        if self.arity <= j {
            next_absent(self.rows.label(kids[j]), from)
        } else if j < kids.len() {
            next_in_set(self.rows.label(kids[j]), from)
        } else {
            next_pure(self.alone, from)
        }
    }

    /// The first state from `from` on that may stand as child `j`.
    fn next_state(&self, j: usize, from: u32) -> Option<usize>
        requires choices { AreChoices (T.table self.now.body.now) self.now.column
            self.now.alone.now self.now.rows.now.labels self.now.row.now self.now.sym.0
            (symbol_under self.now.row.now self.now.column self.now.sym.0) self.now.arity }
        requires scope { IsScoped self.now.scope (labels_at self.now.rows.now.labels
            self.now.row.now.kids) self.now.arity }
        requires child { j < symbol_kids (T.table self.now.body.now).signature
            (symbol_under self.now.row.now self.now.column self.now.sym.0) }
        ensures some { IfSome result (IsNextChoice (T.table self.now.body.now)
            (may_in self.now.scope (may_choose (T.table self.now.body.now) self.now.column
            self.now.rows.now.labels self.now.row.now self.now.arity) j) from) }
        ensures none { IfNone result (AreNoChoices (T.table self.now.body.now)
            (may_in self.now.scope (may_choose (T.table self.now.body.now) self.now.column
            self.now.rows.now.labels self.now.row.now self.now.arity) j) from) }
    {
        // its clause says that the table is lawful
        let _states = self.body.states();
        match self.scope.state_at(j) {
            Some(state) => next_one(state, from),
            None => self.next_own(j, from),
        }
    }

    /// Whether the states that may stand as child `j` are those of an own child's set.
    fn is_in_set(&self, j: usize) -> bool
        ensures place { IsTrue result → (j < self.now.arity) × (j < length self.now.row.now.kids) }
        ensures all { IsTrue result → (may : ℕ → ℕ → Bool) (k : ℕ)
            → may_in self.now.scope may j k ≡ may j k }
    {
        j < self.arity && j < self.row.kids().len() && self.scope.state_at(j).is_none()
    }

    /// The one state that may stand as child `j`, where there is one alone whatever the labels are.
    fn only_state(&self, j: usize) -> Option<usize>
        requires choices { AreChoices (T.table self.now.body.now) self.now.column
            self.now.alone.now self.now.rows.now.labels self.now.row.now self.now.sym.0
            (symbol_under self.now.row.now self.now.column self.now.sym.0) self.now.arity }
        requires child { j < symbol_kids (T.table self.now.body.now).signature
            (symbol_under self.now.row.now self.now.column self.now.sym.0) }
        ensures { IfSome result (λ s. (k : ℕ) → may_in self.now.scope (may_choose
            (T.table self.now.body.now) self.now.column self.now.rows.now.labels self.now.row.now
            self.now.arity) j k ≡ (s == k)) }
    {
        // its clause says that the table is lawful
        let _states = self.body.states();
        match self.scope.state_at(j) {
            Some(state) => Some(state as usize),
            None => {
                if self.arity <= j {
                    let kids = self.row.kids();
                    next_absent(self.rows.label(kids[j]), 0)
                } else {
                    None
                }
            }
        }
    }

    /// Marks the targets that stand in this stride at the states of the own child `j`'s set.
    fn mark_own(&self, stride: &Stride<'_>, j: usize, out: &mut [u64])
        requires choices { AreChoices (T.table self.now.body.now) self.now.column
            self.now.alone.now self.now.rows.now.labels self.now.row.now self.now.sym.0
            (symbol_under self.now.row.now self.now.column self.now.sym.0) self.now.arity }
        requires in_set { j < self.now.arity }
        requires own { j < length self.now.row.now.kids }
        requires readable { (k : ℕ) → may_choose (T.table self.now.body.now) self.now.column
            self.now.rows.now.labels self.now.row.now self.now.arity j k ≡ true
            → IsReadable stride.now k }
        requires small { (k : ℕ) → may_choose (T.table self.now.body.now) self.now.column
            self.now.rows.now.labels self.now.row.now self.now.arity j k ≡ true
            → read_at stride.now k < length (T.table self.now.body.now).presences }
        requires kid { (k : ℕ) → may_choose (T.table self.now.body.now) self.now.column
            self.now.rows.now.labels self.now.row.now self.now.arity j k ≡ true
            → k < length (T.table self.now.body.now).presences }
        requires room { length out.old ≡ words_for (length (T.table self.now.body.now).presences)
            + 2 }
        ensures first { slice_index out.new 0 ≡ slice_index out.old 0 }
        ensures second { slice_index out.new 1 ≡ slice_index out.old 1 }
        ensures marked { (q : ℕ) → has_state out.new q ≡ (some_below
            (length (T.table self.now.body.now).presences) (λ k. may_choose
            (T.table self.now.body.now) self.now.column self.now.rows.now.labels self.now.row.now
            self.now.arity j k && (read_at stride.now k == q)) || has_state out.old q) }
    {
        // its clause says that the table is lawful
        let _states = self.body.states();
        let kids = self.row.kids();
        let set = self.rows.label(kids[j]);
        mark_set(stride, set, out);
    }

    /// Marks the states that the states of an own child's set give as the last child, behind these.
    fn mark_last(&self, flat: &FlatTargets, start: usize, before: &[u32], out: &mut [u64])
        requires choices { AreChoices (T.table self.now.body.now) self.now.column
            self.now.alone.now self.now.rows.now.labels self.now.row.now self.now.sym.0
            (symbol_under self.now.row.now self.now.column self.now.sym.0) self.now.arity }
        requires flat { IsFlatOf (T.table self.now.body.now) flat.now }
        requires start { start ≡ slice_index flat.now.listing.starts.items (number_of flat.now.base
            (symbol_under self.now.row.now self.now.column self.now.sym.0)) }
        requires count { length before.now + 1 ≡ symbol_kids (T.table self.now.body.now).signature
            (symbol_under self.now.row.now self.now.column self.now.sym.0) }
        requires in_set { length before.now < self.now.arity }
        requires own { length before.now < length self.now.row.now.kids }
        requires before { (i : ℕ) → i < length before.now → IsKidState (T.table self.now.body.now)
            (symbol_under self.now.row.now self.now.column self.now.sym.0) i
            (slice_index_or before.now i 0) }
        requires room { length out.old ≡ words_for (length (T.table self.now.body.now).presences)
            + 2 }
        ensures first { slice_index out.new 0 ≡ slice_index out.old 0 }
        ensures second { slice_index out.new 1 ≡ slice_index out.old 1 }
        ensures marked { (q : ℕ) → has_state out.new q ≡ (is_reachable
            (T.table self.now.body.now) (may_choose (T.table self.now.body.now) self.now.column
            self.now.rows.now.labels self.now.row.now self.now.arity)
            (symbol_under self.now.row.now self.now.column self.now.sym.0) before.now
            (length before.now) 1 q || has_state out.old q) }
    {
        // its clause says that the table is lawful
        let _states = self.body.states();
        let _count = flat.listing.targets.len();
        let place = flat.spots.place_of(before);
        let stride = Stride {
            flat,
            start,
            place,
            times: 1,
            plus: 0,
        };
        self.mark_own(&stride, before.len(), out);
    }

    /// The same as the last child but one, where the last one has this state.
    fn mark_before(
        &self,
        flat: &FlatTargets,
        start: usize,
        before: &[u32],
        last: usize,
        out: &mut [u64],
    )
        requires choices { AreChoices (T.table self.now.body.now) self.now.column
            self.now.alone.now self.now.rows.now.labels self.now.row.now self.now.sym.0
            (symbol_under self.now.row.now self.now.column self.now.sym.0) self.now.arity }
        requires flat { IsFlatOf (T.table self.now.body.now) flat.now }
        requires start { start ≡ slice_index flat.now.listing.starts.items (number_of flat.now.base
            (symbol_under self.now.row.now self.now.column self.now.sym.0)) }
        requires count { length before.now + 2 ≡ symbol_kids (T.table self.now.body.now).signature
            (symbol_under self.now.row.now self.now.column self.now.sym.0) }
        requires in_set { length before.now < self.now.arity }
        requires own { length before.now < length self.now.row.now.kids }
        requires before { (i : ℕ) → i < length before.now → IsKidState (T.table self.now.body.now)
            (symbol_under self.now.row.now self.now.column self.now.sym.0) i
            (slice_index_or before.now i 0) }
        requires last { IsKidState (T.table self.now.body.now)
            (symbol_under self.now.row.now self.now.column self.now.sym.0) (length before.now + 1)
            last }
        requires room { length out.old ≡ words_for (length (T.table self.now.body.now).presences)
            + 2 }
        ensures first { slice_index out.new 0 ≡ slice_index out.old 0 }
        ensures second { slice_index out.new 1 ≡ slice_index out.old 1 }
        ensures marked { (q : ℕ) → has_state out.new q ≡ (some_below
            (length (T.table self.now.body.now).presences) (λ k. may_choose
            (T.table self.now.body.now) self.now.column self.now.rows.now.labels self.now.row.now
            self.now.arity (length before.now) k && ((T.table self.now.body.now).target (entry
            (symbol_under self.now.row.now self.now.column self.now.sym.0)
            (before.now ++ k ∷ last ∷ [])) == q)) || has_state out.old q) }
    {
        // its clause says that the table is lawful
        let _states = self.body.states();
        let _count = flat.listing.targets.len();
        let place = flat.spots.place_of(before);
        let stride = Stride {
            flat,
            start,
            place,
            times: flat.spots.alike[last] as usize,
            plus: flat.spots.ranks[last] as usize,
        };
        self.mark_own(&stride, before.len(), out);
    }

    /// Marks the states that some choice of states gives: `j` children have theirs, and `rest` have not.
    pub(crate) fn visit(
        &self,
        look_up: &LookUp<'_>,
        chosen: &[u32; 8],
        j: usize,
        rest: usize,
        out: &mut [u64],
    )
        requires choices { AreChoices (T.table self.now.body.now) self.now.column
            self.now.alone.now self.now.rows.now.labels self.now.row.now self.now.sym.0
            (symbol_under self.now.row.now self.now.column self.now.sym.0) self.now.arity }
        requires scope { IsScoped self.now.scope (labels_at self.now.rows.now.labels
            self.now.row.now.kids) self.now.arity }
        requires look_up { FindsUnder (T.table self.now.body.now)
            (symbol_under self.now.row.now self.now.column self.now.sym.0) look_up.now }
        requires count { j + rest ≡ symbol_kids (T.table self.now.body.now).signature
            (symbol_under self.now.row.now self.now.column self.now.sym.0) }
        requires few { j + rest ≤ 8 }
        requires before { (i : ℕ) → i < j → IsKidState (T.table self.now.body.now)
            (symbol_under self.now.row.now self.now.column self.now.sym.0) i
            (slice_index_or chosen.now i 0) }
        requires room { length out.old ≡ words_for (length (T.table self.now.body.now).presences)
            + 2 }
        ensures first { slice_index out.new 0 ≡ slice_index out.old 0 }
        ensures second { slice_index out.new 1 ≡ slice_index out.old 1 }
        ensures marked { (q : ℕ) → has_state out.new q ≡ (is_reachable
            (T.table self.now.body.now) (may_in self.now.scope (may_choose
            (T.table self.now.body.now) self.now.column self.now.rows.now.labels
            self.now.row.now self.now.arity))
            (symbol_under self.now.row.now self.now.column self.now.sym.0) (take j chosen.now) j
            rest q || has_state out.old q) }
    {
        // its clause says that the table is lawful
        let _states = self.body.states();
        if rest == 0 {
            let state = look_up.target(&chosen[..j]);
            set_bit(out, 128 + state as usize);
            return;
        }
        if let Some(flat) = look_up.flat() {
            if rest == 1 && self.is_in_set(j) {
                self.mark_last(flat, look_up.start, &chosen[..j], out);
                return;
            }
            if rest == 2 && self.is_in_set(j) {
                if let Some(last) = self.only_state(j + 1) {
                    self.mark_before(flat, look_up.start, &chosen[..j], last, out);
                    return;
                }
            }
        }
        let mut from = 0;
        'states: while let Some(k) = self.next_state(j, from) {
            let mut next = *chosen;
            next[j] = k as u32;
            self.visit(look_up, &next, j + 1, rest - 1, out);
            from = k as u32 + 1;
        }
    }
}
