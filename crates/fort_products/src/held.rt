//! Targets held against the labels of their entries, tuple symbol by tuple symbol.
ghost use Rattle.std.specs.Prelude.{◌≡◌, ℕ, ◌+◌, ◌<◌, ◌≤◌, ◌^◌, List, [], take, IsTrue};
ghost use Rattle.fort_tables.specs.Tuples.{TupleSymbol};
ghost use Rattle.fort_target_lists.specs.Places.{IsNumbered};
ghost use Rattle.fort_target_lists.specs.Walks.{Stop};
ghost use Rattle.fort_tables.specs.Tables as tables;
ghost use Rattle.fort_products.specs.HeldWalks.{Operands, operands_of, IsHoldingAt, HasHeldTo, HasHeldBehind, IsHeldBetween};

use crate::joint::{Joint, joint_of};
use crate::product::Both;
use fort_labels::Rows;
use fort_table::Table;
use fort_target_lists::{LayingWalk, is_present, kid_count, kid_presence};
use fort_tuple_symbols::TupleSym;

/// A walk over all entries of a product, which holds the target at each one's cursor against the label that the entry is to have.
#[derive(Clone, Copy)]
pub(crate) struct Holding<'a, 'b> {
    pub(crate) walk: LayingWalk<'a>,
    /// The labels of the states.
    pub(crate) rows: &'b Rows,
    /// Targets before this place are passed unseen.
    pub(crate) from: usize,
}

impl<'a, 'b> Holding<'a, 'b> {
    /// Passes an entry of this stage; whether its target is right, or is passed unseen.
    fn pass(&self, joint: &Joint<'_>, stage: usize, kids: &[u32], cursors: &mut [usize]) -> bool
        requires { (o : Operands) × (f : TupleSymbol) × (p : Stop)
            × IsHoldingAt o p self.now f joint.now stage 0 0 × (kids.now ≡ p.kids)
            × HasHeldTo o p self.now cursors.old }
        ensures { (o : Operands) (f : TupleSymbol) (p : Stop)
            → IsHoldingAt o p self.now f joint.now stage 0 0 → kids.now ≡ p.kids
            → HasHeldTo o p self.now cursors.old
            → IsTrue result → HasHeldBehind o p self.now f 0 0 cursors.new }
    {
        let cursor = cursors[stage];
        cursors[stage] = cursor + 1;
        if cursor < self.from {
            return true;
        }
        let target = self.walk.targets[cursor];
        (target as usize) < self.rows.len()
            && joint.is_label(self.rows, kids, self.rows.label(target))
    }

    /// Passes the entries of a tuple symbol over first child states, `j` of them and of stage `latest`, and `rest` others; whether
    /// the targets are right.
    fn pass_kids(
        &self,
        symbol: &TupleSym,
        joint: &Joint<'_>,
        latest: usize,
        chosen: [u32; 8],
        j: usize,
        rest: usize,
        cursors: &mut [usize],
    ) -> bool
        requires some { 0 < rest }
        requires few { j + rest ≤ 8 }
        requires at { (o : Operands) × (p : Stop)
            × IsHoldingAt o p self.now symbol.now joint.now latest j rest
            × (take j chosen ≡ p.kids)
            × HasHeldTo o p self.now cursors.old }
        ensures { (o : Operands) (p : Stop)
            → IsHoldingAt o p self.now symbol.now joint.now latest j rest
            → take j chosen ≡ p.kids
            → HasHeldTo o p self.now cursors.old
            → IsTrue result → HasHeldBehind o p self.now symbol.now j rest cursors.new }
    {
        let states = self.walk.chains.nexts.len();
        let mut q = self
            .walk
            .chains
            .first(kid_presence(self.walk.signature, symbol, j));
        'states: while (q as usize) < states {
            let stage = latest.max(q as usize + 1);
            let mut kids = chosen;
            kids[j] = q;
            let is_right = if rest == 1 {
                self.pass(joint, stage, &kids[..j + 1], cursors)
            } else {
                self.pass_kids(symbol, joint, stage, kids, j + 1, rest - 1, cursors)
            };
            if !is_right {
                return false;
            }
            q = self.walk.chains.next(q);
        }
        true
    }

    /// Passes the entries of a tuple symbol with so many children; whether the targets are right.
    pub(crate) fn pass_under(
        &self,
        symbol: &TupleSym,
        joint: &Joint<'_>,
        count: usize,
        cursors: &mut [usize],
    ) -> bool
        requires few { count ≤ 8 }
        requires at { (o : Operands) × (p : Stop)
            × IsHoldingAt o p self.now symbol.now joint.now 0 0 count × (p.kids ≡ [])
            × HasHeldTo o p self.now cursors.old }
        ensures { (o : Operands) (p : Stop)
            → IsHoldingAt o p self.now symbol.now joint.now 0 0 count → p.kids ≡ []
            → HasHeldTo o p self.now cursors.old
            → IsTrue result → HasHeldBehind o p self.now symbol.now 0 count cursors.new }
    {
        if count == 0 {
            self.pass(joint, 0, &[], cursors)
        } else {
            self.pass_kids(symbol, joint, 0, [0; 8], 0, count, cursors)
        }
    }
}

impl<'a, T: Table> Both<'a, T> {
    /// Passes the entries of a tuple symbol, all of those with lesser numbers being passed; whether their targets are right.
    fn hold_symbol(
        &self,
        holding: &Holding<'_, '_>,
        symbol: &TupleSym,
        cursors: &mut [usize],
    ) -> bool
        requires between { (n : ℕ) × (t : tables.Listed) × (begins : List ℕ)
            × IsNumbered holding.now.walk.base holding.now.walk.columns n symbol.now
            × IsHeldBetween
            (operands_of T.table self.now.first self.now.second) t begins holding.now n
            cursors.old }
        ensures { (n : ℕ) (t : tables.Listed) (begins : List ℕ)
            → IsNumbered holding.now.walk.base holding.now.walk.columns n symbol.now
            → IsHeldBetween
            (operands_of T.table self.now.first self.now.second) t begins holding.now n
            cursors.old
            → IsTrue result → IsHeldBetween (operands_of T.table self.now.first self.now.second)
            t begins holding.now (n + 1) cursors.new }
    {
        let walk = &holding.walk;
        if !is_present(symbol) {
            return true;
        }
        let count = kid_count(walk.signature, symbol);
        // many tuple symbols have no children, and what these are read by would be found in vain
        if count == 0 && cursors[0] < holding.from {
            cursors[0] += 1;
            return true;
        }
        let joint = joint_of(
            &self.first,
            self.first_list,
            &self.second,
            self.second_list,
            symbol,
        );
        match joint {
            Some(joint) => holding.pass_under(symbol, &joint, count, cursors),
            None => false,
        }
    }

    /// Passes all entries, where there are so many tuple symbols; whether the targets are right.
    pub(crate) fn hold_all(
        &self,
        holding: &Holding<'_, '_>,
        count: usize,
        cursors: &mut [usize],
    ) -> bool
        requires count { count ≡ holding.now.walk.base ^ holding.now.walk.columns }
        requires between { (t : tables.Listed) × (begins : List ℕ) × IsHeldBetween
            (operands_of T.table self.now.first self.now.second) t begins holding.now 0
            cursors.old }
        ensures { (t : tables.Listed) (begins : List ℕ) → IsHeldBetween
            (operands_of T.table self.now.first self.now.second) t begins holding.now 0
            cursors.old
            → IsTrue result → IsHeldBetween (operands_of T.table self.now.first self.now.second)
            t begins holding.now count cursors.new }
    {
        // its clause says that the signature is lawful
        let _symbols = holding.walk.signature.len();
        let mut symbol = TupleSym::absent(holding.walk.columns);
        for _ in 0..count {
            if !self.hold_symbol(holding, &symbol, cursors) {
                return false;
            }
            symbol.to_next(holding.walk.base);
        }
        true
    }
}
