//! The bits of labels: rows of words, and patterns by numbers that are tested by the bits of an entry's children.
#![tactic(auto)]

mod arguments;
mod bits;
mod numbered;
mod root_steps;
mod rooted;
mod rows;
mod rule_places;
mod under;

pub use arguments::{Arguments, arguments_of};
pub use bits::{
    add_mark, all_have, clear, has_mark, is_there, one_has, put_first, put_mark, same_roots,
    skip_off, some_has,
};
pub use numbered::{
    Numbered, is_inside, number_patterns, pattern_at, place_of, root_patterns, write_inside,
    write_rooted,
};
pub use root_steps::{rules_under, some_marked};
pub use rooted::{Rooted, grow, push_in};
pub use rows::{add_row, clear_rows, mark, row_at};
pub use rule_places::{RulePlaces, places_of_rules, rule_at, some_rule};
pub use under::{all_under, one_under, some_under};
