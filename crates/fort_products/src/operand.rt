//! Operands.
ghost use Rattle.std.specs.Prelude.{◌≡◌, length};
ghost use Rattle.fort_tables.specs.Products.{IsLawful, places_of};
ghost use Rattle.fort_products.specs.Operands.{operand_of};

use fort_table::Table;

/// A table with the places of its columns among those of the product, or a truth.
#[derive(Clone, Copy)]
pub enum Operand<'a, T> {
    Auto(&'a T, &'a [usize]),
    Truth(bool),
}

impl<'a, T: Table> Operand<'a, T> {
    /// How many columns it has: none where it is a truth.
    pub fn columns(&self) -> usize
        ensures count { result ≡ length (places_of (operand_of T.table self.now)) }
        ensures lawful { IsLawful (operand_of T.table self.now) }
    {
        match self {
            Operand::Auto(table, places) => {
                // its clause says that the table is lawful
                let _states = table.states();
                places.len()
            }
            Operand::Truth(_) => 0,
        }
    }
}
