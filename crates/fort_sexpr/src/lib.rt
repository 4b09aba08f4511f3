//! Reads a text into its forms: words, and lists of forms in parentheses, each with its place in the text.
#![tactic(auto)]

mod ahead;
mod arena;
mod digits;
mod fault;
mod form;
mod front;
mod reader;
mod scan;
mod text;
mod token;
mod walk;

pub use digits::{Digits, digits_ahead};
pub use fault::SFault;
pub use form::{Form, FormList, Span};
pub use reader::{Reader, read, read_pieces};
pub use scan::{is_ahead, is_blank, is_word_byte};
pub use text::Forms;
