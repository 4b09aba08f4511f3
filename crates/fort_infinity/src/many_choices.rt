//! The search through the choices of states for the children under a symbol in the column.
ghost use Rattle.std.specs.Prelude.{◌≡◌, ℕ, ◌<◌, ◌≤◌, ◌+◌, ◌*◌, ◌^◌, ◌&&◌, ◌||◌, ◌==◌, nat_lt, take, length, slice_index, slice_index_or, IfSome, IfNone};
ghost use Rattle.std.specs.Slice.Scan.{HoldsNowhere};
ghost use Rattle.fort_tables.specs.Tuples.{symbol_kids};
ghost use Rattle.fort_tables.specs.BitRows.{words_for};
ghost use Rattle.fort_tables.proofs.TableLaws.{IsKidState};
ghost use Rattle.fort_tables.specs.Projections.{ArePure, has_state};
ghost use Rattle.fort_tables.specs.ManyLabels.{has_many, kid_has_many as kid_has_many_lem};
ghost use Rattle.fort_tables.specs.ManyEntries.{kid_labels, AreManyChoices, finds, may_be, gives_state, gives_endless, has_endless};
ghost use Rattle.fort_projections.specs.Choices.{IsNext, IsNextChoice, AreNoChoices, may_choose};
ghost use Rattle.fort_infinity.specs.ManyCounts.{is_many};

use fort_findings::Count;
use fort_labels::{Rows, has_bit, set_bit};
use fort_projections::{next_absent, next_in_set, next_pure};
use fort_table::Table;
use fort_terms::Sym;
use fort_tuple_symbols::{Row, TupleSym};

/// A symbol in the column above an entry over labels of "infinitely many".
#[derive(Drop)]
pub(crate) struct ManyChoices<'a, T: Table> {
    pub(crate) body: &'a T,
    pub(crate) column: usize,
    /// The body's states with this column alone present, and their counts.
    pub(crate) alone: &'a [u32],
    pub(crate) counts: &'a [Count],
    pub(crate) row: &'a Row,
    pub(crate) rows: &'a Rows,
    pub(crate) sym: Sym,
    /// The entry's symbol with `sym` in the column.
    pub(crate) symbol: TupleSym,
    pub(crate) arity: usize,
}

/// Whether the count beside a state is infinite; a state that isn't in the list has none.
fn is_many_at(alone: &[u32], counts: &[Count], k: u32) -> bool
    requires ascending { (i j : ℕ) → i < j → j < length alone.now
        → slice_index_or alone.now i 0 < slice_index_or alone.now j 0 }
    requires sizes { length counts.now ≡ length alone.now }
    ensures { result ≡ is_many alone.now counts.now k }
{
    match alone.binary_search(&k) {
        Ok(place) => counts[place].is_infinite(),
        Err(_) => false,
    }
}

/// Marks that some term gives a state, and where a child is endless, that infinitely many do.
fn mark_state(out: &mut [u64], states: usize, state: usize, endless: bool)
    requires state { state < states }
    requires small { states < 2 ^ 32 }
    requires room { length out.old ≡ words_for (2 * states) + 2 }
    ensures first { slice_index out.new 0 ≡ slice_index out.old 0 }
    ensures second { slice_index out.new 1 ≡ slice_index out.old 1 }
    ensures given { (q : ℕ) → q < states
        → has_state out.new q ≡ ((state == q) || has_state out.old q) }
    ensures many { (q : ℕ) → has_many states out.new q
        ≡ (((state == q) && endless) || has_many states out.old q) }
{
    set_bit(out, 128 + state);
    if endless {
        set_bit(out, 128 + (states + state));
    }
}

/// The first state from `from` on that some term gives. Behind the bits of these states stand those that infinitely many give.
fn next_given(label: &[u64], states: u32, from: u32) -> Option<usize>
    requires { length label.now < 2 ^ 32 }
    ensures some { IfSome result (IsNext (has_state label.now) from) }
    ensures within { IfSome result (λ k. k < states) }
    ensures none { IfNone result (HoldsNowhere (has_state label.now) from states) }
{
    match next_in_set(label, from) {
        Some(k) => { if k < states as usize { Some(k) } else { None } }
        None => None,
    }
}

impl<'a, T: Table> ManyChoices<'a, T> {
    /// The first state from `from` on that may stand as child `j`.
    fn next_state(&self, j: usize, from: u32) -> Option<usize>
        requires choices { AreManyChoices (T.table self.now.body.now) self.now.column
            (is_many self.now.alone.now self.now.counts.now) self.now.rows.now.labels
            self.now.row.now self.now.sym.0 self.now.symbol self.now.arity }
        requires pure { ArePure (T.table self.now.body.now) self.now.column self.now.alone.now }
        requires child { j < symbol_kids (T.table self.now.body.now).signature self.now.symbol }
        ensures some { IfSome result (IsNextChoice (T.table self.now.body.now)
            (may_choose (T.table self.now.body.now) self.now.column self.now.rows.now.labels
            self.now.row.now self.now.arity j) from) }
        ensures none { IfNone result (AreNoChoices (T.table self.now.body.now)
            (may_choose (T.table self.now.body.now) self.now.column self.now.rows.now.labels
            self.now.row.now self.now.arity j) from) }
    {
        let states = self.body.states();
        let kids = self.row.kids();
        if self.arity <= j {
            next_absent(self.rows.label(kids[j]), from)
        } else if j < kids.len() {
            next_given(self.rows.label(kids[j]), states, from)
        } else {
            next_pure(self.alone, from)
        }
    }

    /// Whether child `j` is below the column's symbol, and infinitely many terms give it this state.
    fn kid_has_many(&self, j: usize, k: u32) -> bool
        requires choices { AreManyChoices (T.table self.now.body.now) self.now.column
            (is_many self.now.alone.now self.now.counts.now) self.now.rows.now.labels
            self.now.row.now self.now.sym.0 self.now.symbol self.now.arity }
        requires pure { ArePure (T.table self.now.body.now) self.now.column self.now.alone.now }
        requires counts { length self.now.counts.now ≡ length self.now.alone.now }
        requires state { k < length (T.table self.now.body.now).presences }
        ensures { result ≡ (nat_lt j self.now.arity && kid_has_many_lem
            (T.table self.now.body.now) (is_many self.now.alone.now self.now.counts.now)
            (kid_labels self.now.rows.now.labels self.now.row.now) j k) }
    {
        let states = self.body.states() as usize;
        let kids = self.row.kids();
        if self.arity <= j {
            false
        } else if j < kids.len() {
            has_bit(self.rows.label(kids[j]), 128 + (states + k as usize))
        } else {
            is_many_at(self.alone, self.counts, k)
        }
    }

    /// Marks the states that some choice of states gives, and those that one with an endless child gives: `j` children have theirs,
    /// and `rest` have not. A child is endless where infinitely many terms give it its state.
    pub(crate) fn visit(
        &self,
        chosen: [u32; 8],
        endless: bool,
        j: usize,
        rest: usize,
        out: &mut [u64],
    )
        requires choices { AreManyChoices (T.table self.now.body.now) self.now.column
            (is_many self.now.alone.now self.now.counts.now) self.now.rows.now.labels
            self.now.row.now self.now.sym.0 self.now.symbol self.now.arity }
        requires pure { ArePure (T.table self.now.body.now) self.now.column self.now.alone.now }
        requires counts { length self.now.counts.now ≡ length self.now.alone.now }
        requires count { j + rest ≡ symbol_kids (T.table self.now.body.now).signature
            self.now.symbol }
        requires few { j + rest ≤ 8 }
        requires before { (i : ℕ) → i < j → IsKidState (T.table self.now.body.now)
            self.now.symbol i (slice_index_or chosen i 0) }
        requires endless { endless ≡ has_endless (T.table self.now.body.now)
            (is_many self.now.alone.now self.now.counts.now)
            (kid_labels self.now.rows.now.labels self.now.row.now) self.now.arity j chosen }
        requires room { length out.old
            ≡ words_for (2 * length (T.table self.now.body.now).presences) + 2 }
        ensures first { slice_index out.new 0 ≡ slice_index out.old 0 }
        ensures second { slice_index out.new 1 ≡ slice_index out.old 1 }
        ensures given { (q : ℕ) → q < length (T.table self.now.body.now).presences
            → has_state out.new q ≡ (finds (T.table self.now.body.now)
            (may_be (T.table self.now.body.now) self.now.column self.now.rows.now.labels
            self.now.row.now self.now.arity) (gives_state (T.table self.now.body.now)
            self.now.symbol q) (take j chosen) j rest || has_state out.old q) }
        ensures many { (q : ℕ) → has_many (length (T.table self.now.body.now).presences) out.new q
            ≡ (finds (T.table self.now.body.now) (may_be (T.table self.now.body.now)
            self.now.column self.now.rows.now.labels self.now.row.now self.now.arity)
            (gives_endless (T.table self.now.body.now)
            (is_many self.now.alone.now self.now.counts.now) self.now.rows.now.labels
            self.now.row.now self.now.symbol self.now.arity q) (take j chosen) j rest
            || has_many (length (T.table self.now.body.now).presences) out.old q) }
    {
        let states = self.body.states();
        if rest == 0 {
            let state = self.body.target(&self.symbol, &chosen[..j]);
            mark_state(out, states as usize, state as usize, endless);
            return;
        }
        let mut from = 0;
        'states: while let Some(k) = self.next_state(j, from) {
            let mut next = chosen;
            next[j] = k as u32;
            let more = self.kid_has_many(j, k as u32);
            let some = endless | more;
            self.visit(next, some, j + 1, rest - 1, out);
            from = k as u32 + 1;
        }
    }
}
