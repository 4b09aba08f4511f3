//! Tuple symbols, their numbers, and entries: a tuple symbol over child states.
#![tactic(auto)]

mod digit_set;
mod digits;
mod number_set;
mod row;
mod symbol;
mod symbol_set;

pub use digit_set::DigitSet;
pub use digits::{column_arity, digit_arity, most_kids, presence_at};
pub use number_set::reach;
pub use row::Row;
pub use symbol::TupleSym;
pub use symbol_set::{SymbolSet, are_few, number_of};
