//! What the label of an atom asks of the labels of its children.
#![tactic(auto)]

mod arguments;
mod asked_facts;
mod mark_keys;
mod masked;
mod side;
mod subterms;
mod term_keys;
mod whole_keys;

pub use mark_keys::MarkKeys;
pub use side::Side;
pub use term_keys::TermKeys;
pub use whole_keys::WholeKeys;
