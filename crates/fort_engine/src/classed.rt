//! Answers as operands of products, with the classes of their tables' states.
ghost use Rattle.std.specs.Prelude.{◌≡◌, ℕ, List, IfOk, IfSome};
ghost use Rattle.fort_products.specs.Operands as algebra;
ghost use Rattle.fort_parts.specs.PartSteps.{operand_of};
ghost use Rattle.fort_target_lists.specs.TargetLists.{IsOperandList};
ghost use Rattle.fort_engine.specs.AnswerView.{as_answer};
ghost use Rattle.fort_engine.specs.ClassedView.{classed_table, operand_in};

use crate::answer::Last;
use fort_classed_tables::ClassedTable;
use fort_products::Operand;
use fort_target_lists::TargetList;
use std::alloc::{AllocError, Global};

/// An answer; a table has its states in classes.
#[derive(Drop)]
pub(crate) enum ClassedAnswer<'a> {
    Auto(ClassedTable<'a>),
    Truth(bool),
}

impl<'a> ClassedAnswer<'a> {
    /// Finds the classes of an answer's table.
    pub(crate) fn of(alloc: Global, answer: &'a Last) -> Result<ClassedAnswer<'a>, AllocError>
        ensures { IfOk result (λ c. (places : List ℕ)
            → operand_in c places ≡ operand_of (as_answer answer.now) places) }
    {
        match answer {
            Last::Auto(table) => Ok(ClassedAnswer::Auto(ClassedTable::new(alloc, table)?)),
            Last::Truth(truth) => Ok(ClassedAnswer::Truth(*truth)),
        }
    }

    /// It as an operand that has its columns at these places among the product's.
    pub(crate) fn operand<'b>(&'b self, places: &'b [usize]) -> Operand<'b, ClassedTable<'a>>
        ensures { algebra.operand_of classed_table result ≡ operand_in self.now places.now }
    {
        match self {
            ClassedAnswer::Auto(table) => Operand::Auto(table, places),
            ClassedAnswer::Truth(truth) => Operand::Truth(*truth),
        }
    }

    /// The list of its targets; a truth has none.
    pub(crate) fn list(&self) -> Option<&TargetList>
        ensures { (places : List ℕ) → IfSome result (λ l. IsOperandList
            (operand_in self.now places) l.now) }
    {
        match self {
            ClassedAnswer::Auto(table) => Some(table.list()),
            ClassedAnswer::Truth(_) => None,
        }
    }
}
