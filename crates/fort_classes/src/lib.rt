//! Definitions of classes of states at the places of tuple symbols, of the entries that lead, and of the table for which leading
//! entries stand, with the laws about them. It has no code.
#![tactic(auto)]
