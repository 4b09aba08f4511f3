//! A table's targets in one list: laid from the targets in the order of the entries, or as they are told, and looked up.
#![tactic(auto)]

mod chains;
mod class_list;
mod class_reader;
mod columns;
mod entry_count;
mod entry_targets;
mod flat;
mod laying;
mod look_up;
mod numbers;
mod states;
mod target_list;
mod told_list;
mod told_walk;
mod walk;

pub use chains::Chains;
pub use class_list::{ClassList, ClassView};
pub use class_reader::ClassReader;
pub use columns::{is_present, kid_count, kid_presence, selected};
pub use entry_count::has_entries;
pub use entry_targets::EntryTargets;
pub use flat::{FlatTargets, Listing, Spots};
pub use look_up::{Finder, LookUp};
pub use states::LayRoom;
pub use target_list::{TargetList, flat_of};
pub use walk::LayingWalk;
