//! What is asked: a formula that is taken, an input that is read, and the lines that refuse others.
#![tactic(auto)]

mod accepted;
mod fit;
mod input;
mod question;
mod refusal;

pub use accepted::accepted_formula;
pub use fit::terms_of;
pub use input::{Behind, Input, read_input};
pub use question::{Openness, Question, Tail};
pub use refusal::{Refusal, push_number, text_line};
