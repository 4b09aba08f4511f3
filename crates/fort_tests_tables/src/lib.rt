//! Tests of tables, of what makes them, and of least tuples.
#![tactic(auto)]

#[cfg(test)]
mod equality;
#[cfg(test)]
mod plain_classes;
#[cfg(test)]
mod reductions;
#[cfg(test)]
mod rules;
#[cfg(test)]
mod small_tables;
#[cfg(test)]
mod witness;
