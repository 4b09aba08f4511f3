//! A first call of each crate that others call.
#![tactic(auto)]

pub mod cert_checker;
pub mod engine;
pub mod explore;
pub mod formulas;
pub mod lockstep;
pub mod rrn_algebra;
pub mod run;
pub mod terms;
