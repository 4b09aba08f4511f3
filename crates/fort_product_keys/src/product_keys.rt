//! What the labels of a product ask of a child's label.
ghost use Rattle.std.specs.Prelude.{◌≡◌};
ghost use Rattle.fort_tables.specs.LabelRules.{label_of};
ghost use Rattle.fort_tables.specs.Products.{signature_of, product_rule};
ghost use Rattle.fort_classes.specs.Keys.{GoesByEachKey};
ghost use Rattle.fort_label_keys.specs.ViewKeys.{keys_by};
ghost use Rattle.fort_products.specs.Operands.{operand_of};
ghost use Rattle.fort_product_keys.specs.ProgramViews as views;

use crate::operand_keys::{PlaceView, operand_key, operand_view};
use fort_label_keys::LabelKeys;
use fort_labels::LocalRule;
use fort_products::Both;
use fort_table_classes::TableClasses;
use fort_tuple_symbols::TupleSym;
use std::alloc::AllocError;

/// Keys for the labels of a product: of each operand the class of its state.
#[derive(Clone, Copy)]
pub struct ProductKeys<'k, 'a, T: TableClasses> {
    product: &'k Both<'a, T>,
}

impl<'k, 'a, T: TableClasses> ProductKeys<'k, 'a, T> {
    pub fn new(product: &'k Both<'a, T>) -> ProductKeys<'k, 'a, T>
        ensures lent { result.product.now ≡ product.now }
        ensures goes { GoesByEachKey (signature_of (operand_of T.table product.now.first)
            (operand_of T.table product.now.second)) product.now.columns
            (label_of (product_rule product.now.columns (operand_of T.table product.now.first)
            (operand_of T.table product.now.second)))
            (keys_by (views.view_of T.table T.view_number product.now.first product.now.second
            product.now.columns) (views.key_of T.table T.leader_in product.now.first
            product.now.second)) }
    {
        // their clauses say that the tables are lawful
        let _first_columns = product.first().columns();
        let _second_columns = product.second().columns();
        ProductKeys { product }
    }
}

impl<'k, 'a, T: TableClasses> LabelKeys for ProductKeys<'k, 'a, T> {
    ghost use Rattle.fort_product_keys.specs.ProgramViews.{view_of, key_of};

    ghost view = { λ k. view_of T.table T.view_number k.product.now.first k.product.now.second
        k.product.now.columns };

    ghost key = { λ k. key_of T.table T.leader_in k.product.now.first k.product.now.second };

    ghost word_count = { λ _. 3 };

    fn write_view(
        &self,
        symbol: &TupleSym,
        place: usize,
        words: &mut Vec<u64>,
    ) -> Result<(), AllocError> {
        let columns = self.product.columns();
        let first = operand_view(self.product.first(), columns, symbol, place);
        let second = operand_view(self.product.second(), columns, symbol, place);
        words.push(first.number)?;
        words.push(first.presence)?;
        words.push(second.number)?;
        words.push(second.presence)?;
        Ok(())
    }

    fn write_key(
        &self,
        seen: &[u64],
        label: &[u64],
        words: &mut Vec<u64>,
    ) -> Result<(), AllocError> {
        let first = PlaceView {
            number: seen[0],
            presence: seen[1],
        };
        let second = PlaceView {
            number: seen[2],
            presence: seen[3],
        };
        words.push(operand_key(self.product.first(), first, label[1]))?;
        words.push(operand_key(self.product.second(), second, label[2]))?;
        Ok(())
    }
}
