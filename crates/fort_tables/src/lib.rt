//! Definitions of tables over optional tuples: their entries and labels, operations on them, counts, interchangeable tuples and the order
//! of tuples, with the laws about them. It has no code.
#![tactic(auto)]
