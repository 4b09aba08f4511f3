//! The tuples that a table accepts: the least with its nodes, the first up to a height, and their
//! terms' texts.
#![tactic(auto)]

mod answer;
mod choices;
mod entries;
mod found;
mod head;
mod kept;
mod needed;
mod node_lists;
mod order;
mod rows;
mod search;
mod solve;
mod text;

pub use answer::Solutions;
pub use needed::needed_nodes;
pub use search::least;
pub use solve::solutions;
pub use text::write_term;
