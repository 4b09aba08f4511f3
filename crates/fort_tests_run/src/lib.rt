//! Tests of the whole tool over devices that fail.
#![tactic(auto)]

#[cfg(test)]
mod devices;
