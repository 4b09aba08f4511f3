//! Checks the steps of certificates one by one, by the definition of one in order: closures, the tables of parts, the marks of states.
#![tactic(auto)]

mod by_entry;
mod closure;
mod failure;
mod finals;
mod marks;
mod pairs;
mod part;
mod part_rule;
mod projected;
mod quick;
mod room;
mod rules;
mod sparse_rows;
mod state_labels;
mod table;
mod targets;

pub use closure::check_closure;
pub use failure::{Failure, Reason, failed};
pub use marks::{MarkRoom, check_marks, put_pure};
pub use pairs::PairRules;
pub use part::{check_part, check_part_by_entry};
pub use part_rule::PartRule;
pub use projected::Projected;
pub use room::{LabelNeeds, LabelRoom, ListNeeds, ListRoom, PartRoom, most_states};
pub use rules::closure_rules;
pub use table::PartTable;
