//! Definitions: when two optional tuples are alike at an atom, and the labels of atoms, expressions among them, that tell it. It has no
//! code.
#![tactic(auto)]
