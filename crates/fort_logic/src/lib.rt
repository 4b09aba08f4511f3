//! Definitions of formulas, their truth, and the core formulas that they are turned into, with the lemmas about them. It has no code.
#![tactic(auto)]
