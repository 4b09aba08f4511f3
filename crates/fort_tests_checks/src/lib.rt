//! Tests of automata, transducers and closures, and of checking certificates.
#![tactic(auto)]

#[cfg(test)]
mod automata;
#[cfg(test)]
mod checker;
