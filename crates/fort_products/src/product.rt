//! Products of two operands.
ghost use Rattle.std.specs.Prelude.{◌≡◌, ℕ, ◌<◌, ◌≤◌, ◌^◌, ◌↔◌, map, length, IsTrue, IfSome};
ghost use Rattle.fort_tables.specs.Tuples.{Tuple, IsTuple};
ghost use Rattle.fort_tables.specs.Labels.{first_word, AreLabels};
ghost use Rattle.fort_tables.specs.LabelRules.{label_of};
ghost use Rattle.fort_tables.specs.Products as products;
ghost use Rattle.fort_tables.specs.Agreement.{AgreeAtBoth, OperandAgreement};
ghost use Rattle.fort_theory.specs.Logic.{Connected};
ghost use Rattle.fort_tables.specs.OperationTruth.{TestsRelation, said_by};
ghost use Rattle.fort_tables.proofs.OperandFacts.{AreOperands-prop};
ghost use Rattle.fort_connectives.specs.ConnectiveView.{connective_of};
ghost use Rattle.fort_products.specs.Operands.{operand_of};
ghost use Rattle.fort_target_lists.specs.ListedOperands.{IsListOf, IfListOf-prop};
ghost use Rattle.fort_target_lists.specs.TargetLists.{IsOperandList};
ghost use Rattle.fort_target_lists.specs.LayRooms.{HasLayRoom};
ghost use Rattle.fort_products.specs.HeldTargets.{AreHeldFrom};

use crate::held::Holding;
use crate::listed::write_both;
use crate::local::both_accepts;
use crate::operand::Operand;
use fort_connectives::Op;
use fort_labels::{LocalRule, Rows};
use fort_table::Table;
use fort_target_lists::{FlatTargets, LayRoom, LayingWalk, TargetList, flat_of, has_entries};
use fort_terms::Signature;
use fort_tuple_symbols::Row;

/// The labels of a product: of a tuple over its columns, the presence and the states of the two operands on their own columns.
#[derive(Drop)]
pub struct Both<'a, T: Table> {
    op: Op,
    columns: usize,
    pub(crate) first: Operand<'a, T>,
    pub(crate) second: Operand<'a, T>,
    /// Each operand's targets in a list, where they are.
    pub(crate) first_list: Option<&'a FlatTargets>,
    pub(crate) second_list: Option<&'a FlatTargets>,
    ghost some: { 0 < columns },
    ghost narrow: { columns ≤ 16 },
    ghost operands: { products.AreOperands (products.signature_of (operand_of T.table first)
        (operand_of T.table second)) columns (operand_of T.table first)
        (operand_of T.table second) } by { AreOperands-prop (products.signature_of
            (operand_of T.table first) (operand_of T.table second)) columns
            (operand_of T.table first) (operand_of T.table second) },
    ghost first_listed: { IfSome first_list (λ l. IsListOf (operand_of T.table first) l.now) } by { IfListOf-prop (operand_of T.table first) first_list (λ l. l.now) },
    ghost second_listed: { IfSome second_list (λ l. IsListOf (operand_of T.table second) l.now) } by { IfListOf-prop (operand_of T.table second) second_list (λ l. l.now) },
}

/// Whether an operand's words are found by its list, or need none.
fn is_found<T: Table>(operand: &Operand<'_, T>, list: Option<&FlatTargets>) -> bool {
    match operand {
        Operand::Auto(_, _) => list.is_some(),
        Operand::Truth(_) => true,
    }
}

impl<'a, T: Table> Both<'a, T> {
    /// The product over so many columns.
    pub fn new(op: Op, first: Operand<'a, T>, second: Operand<'a, T>, columns: usize) -> Both<'a, T>
        requires some { 0 < columns }
        requires narrow { columns ≤ 16 }
        requires operands { products.AreOperands (products.signature_of
            (operand_of T.table first) (operand_of T.table second)) columns
            (operand_of T.table first) (operand_of T.table second) }
        ensures op { result.op ≡ op }
        ensures columns { result.columns ≡ columns }
        ensures first { result.first ≡ first.entry }
        ensures second { result.second ≡ second.entry }
        ensures agree { (t u : Tuple)
            → IsTuple (products.signature_of (operand_of T.table first.entry)
            (operand_of T.table second.entry)) columns t
            → IsTuple (products.signature_of (operand_of T.table first.entry)
            (operand_of T.table second.entry)) columns u
            → (label_of (products.product_rule columns (operand_of T.table first.entry)
            (operand_of T.table second.entry)) t
            ≡ label_of (products.product_rule columns (operand_of T.table first.entry)
            (operand_of T.table second.entry)) u)
            ↔ AgreeAtBoth (products.places_of (operand_of T.table first.entry))
            (OperandAgreement (operand_of T.table first.entry))
            (products.places_of (operand_of T.table second.entry))
            (OperandAgreement (operand_of T.table second.entry)) t u }
        ensures accepted { TestsRelation (products.signature_of (operand_of T.table first.entry)
            (operand_of T.table second.entry)) columns
            (λ t. products.product_accepts (connective_of op) (operand_of T.table first.entry)
            (operand_of T.table second.entry) (label_of (products.product_rule columns
            (operand_of T.table first.entry) (operand_of T.table second.entry)) t))
            (λ t. Connected (connective_of op) (IsTrue (said_by (operand_of T.table first.entry) t))
            (IsTrue (said_by (operand_of T.table second.entry) t))) }
    {
        // its clause says that the table is lawful
        let _first_columns = first.columns();
        let _second_columns = second.columns();
        Both {
            op,
            columns,
            first,
            second,
            first_list: None,
            second_list: None,
        }
    }

    /// The same product by lists of the operands' targets, where they are there and made. Look-ups are quicker then.
    pub fn listed(
        self,
        first: Option<&'a TargetList>,
        second: Option<&'a TargetList>,
    ) -> Both<'a, T>
        requires first { IfSome first (λ l. IsOperandList (operand_of T.table self.first) l.now) }
        requires second { IfSome second (λ l. IsOperandList (operand_of T.table self.second)
            l.now) }
        ensures op { result.op ≡ self.entry.op }
        ensures columns { result.columns ≡ self.entry.columns }
        ensures first { result.first ≡ self.entry.first }
        ensures second { result.second ≡ self.entry.second }
    {
        Both {
            op: self.op,
            columns: self.columns,
            first: self.first,
            second: self.second,
            first_list: flat_of(first),
            second_list: flat_of(second),
        }
    }

    pub fn first(&self) -> &Operand<'a, T>
        ensures lent { result.now ≡ self.now.first }
        ensures operand { products.IsOperand (products.signature_of
            (operand_of T.table self.now.first) (operand_of T.table self.now.second))
            self.now.columns (operand_of T.table self.now.first) }
    {
        &self.first
    }

    pub fn second(&self) -> &Operand<'a, T>
        ensures lent { result.now ≡ self.now.second }
        ensures operand { products.IsOperand (products.signature_of
            (operand_of T.table self.now.first) (operand_of T.table self.now.second))
            self.now.columns (operand_of T.table self.now.second) }
    {
        &self.second
    }

    /// Whether the targets are those of the product's entries from a place on, where the states have these labels. It may be false of
    /// right ones too: where the list of an operand that is a table isn't there. It takes no memory.
    pub fn are_targets(
        &self,
        room: &mut LayRoom,
        signature: &Signature,
        presences: &[u16],
        rows: &Rows,
        targets: &[u32],
        from: usize,
    ) -> bool
        requires signature { products.signature_of (operand_of T.table self.now.first)
            (operand_of T.table self.now.second) ≡ signature.now }
        requires few { length targets.now < 2 ^ 32 }
        requires few_states { length presences.now < 2 ^ 32 }
        requires presences { presences.now ≡ map first_word rows.now.labels }
        requires labels { AreLabels (products.signature_of (operand_of T.table self.now.first)
            (operand_of T.table self.now.second)) self.now.columns
            (label_of (products.product_rule self.now.columns (operand_of T.table self.now.first)
            (operand_of T.table self.now.second))) rows.now.labels }
        requires room { HasLayRoom (length presences.now) room.old }
        ensures held { IsTrue result → AreHeldFrom (products.product_rule self.now.columns
            (operand_of T.table self.now.first) (operand_of T.table self.now.second)) from
            targets.now rows.now.labels }
        ensures room { (n : ℕ) → HasLayRoom n room.old → HasLayRoom n room.new }
    {
        if !is_found(&self.first, self.first_list) || !is_found(&self.second, self.second_list) {
            return false;
        }
        let base = signature.len() + 1;
        let count = match base.checked_pow(self.columns as u32) {
            Some(count) if count <= targets.len() + 1 => count,
            _ => return false,
        };
        room.take_states(self.columns, presences);
        let counts = room.counts.as_slice();
        if !has_entries(signature, self.columns, base, count, counts, targets.len()) {
            return false;
        }
        room.begin_cursors(signature, self.columns, base, count, targets);
        let walk = LayingWalk {
            signature,
            columns: self.columns,
            base,
            chains: &room.chains,
            targets,
            lays: true,
        };
        let holding = Holding { walk, rows, from };
        self.hold_all(&holding, count, room.cursors.as_mut_slice())
    }
}

impl<'a, T: Table> LocalRule for Both<'a, T> {
    ghost use Rattle.std.specs.Prelude.{refl};
    ghost use Rattle.fort_tables.specs.Products.{product_rule, product_accepts};
    ghost use Rattle.fort_connectives.specs.ConnectiveView.{connective_of};
    ghost use Rattle.fort_products.specs.Operands.{operand_of};

    ghost rule = { λ b. product_rule b.columns (operand_of T.table b.first)
        (operand_of T.table b.second) };

    ghost word_count = { λ _. 3 };

    ghost accepting = { λ b. product_accepts (connective_of b.op) (operand_of T.table b.first)
        (operand_of T.table b.second) };

    ghost tells = { λ b f ws. refl };

    ghost has_words = { λ b f ws. refl };

    fn columns(&self) -> usize {
        self.columns
    }

    fn width(&self) -> usize {
        3
    }

    fn step(&self, row: &Row, rows: &Rows, out: &mut [u64]) {
        write_both(
            &self.first,
            self.first_list,
            &self.second,
            self.second_list,
            row,
            rows,
            out,
        )
    }

    fn accepts(&self, words: &[u64]) -> bool {
        both_accepts(self.op, &self.first, &self.second, words)
    }
}
