//! Tests of terms and formulas as keys, of core formulas, and of devices.
#![tactic(auto)]

#[cfg(test)]
mod devices;
#[cfg(test)]
mod formulas;
#[cfg(test)]
mod keys;
#[cfg(test)]
mod terms;
#[cfg(test)]
mod translations;
