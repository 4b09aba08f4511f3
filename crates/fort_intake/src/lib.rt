//! Takes a text from a source, piece by piece, and reads it into its forms.
#![tactic(auto)]

mod intake;
mod unread;

pub use intake::take_forms;
pub use unread::Unread;
