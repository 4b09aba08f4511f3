//! Where the classes of a table's states are found.
use crate::place_views::PlaceViews;
use fort_target_lists::ClassList;

/// The classes of a table's states at the places under its tuple symbols.
#[derive(Drop)]
pub enum TableViews<'a> {
    /// Found in the list of all targets.
    Found(PlaceViews),
    /// Those by which the table keeps its targets.
    Kept(&'a ClassList),
}
