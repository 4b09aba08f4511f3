//! Reads a text into a formula, or finds its first fault.
#![tactic(auto)]

mod atom;
mod cursor;
mod expression;
mod expression_word;
mod fault;
mod ground;
mod lexer;
mod parsed;
mod parser;
mod reading;
mod stuck;
mod symbol;
mod token;
mod top;
mod word;

pub use fault::FFault;
pub use parsed::{Ground, Parsed};
pub use top::parse;
