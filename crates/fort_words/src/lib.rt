//! What the words of a command line ask, read by `clap`.
#![tactic(auto)]

mod command;
mod number;
mod request;
mod row;

pub use request::{Bounds, Family, Options, Request, read_request};
