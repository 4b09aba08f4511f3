//! The labels of atoms.
#![tactic(auto)]

mod atom_labels;
mod closures;
mod facts;
mod nodes;
mod normal;
mod reach;
mod reached;
mod relation;
mod rule_list;
mod side_places;
mod signed;
mod term_labels;

pub use atom_labels::AtomLabels;
pub use closures::closure;
pub use normal::NormalBits;
pub use relation::RelationBits;
pub use signed::SignedAtom;
pub use term_labels::TermLabels;
