//! The states in classes, by what is asked of their labels, and their leaders at the places under one tuple symbol after another.
#![tactic(auto)]

mod key_set;
mod keyed_views;
mod place_views;
mod ranks;
mod view;
mod views;

pub use keyed_views::KeyedViews;
pub use ranks::ranks_of;
pub use view::View;
pub use views::Views;
