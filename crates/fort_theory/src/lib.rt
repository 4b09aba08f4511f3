//! Definitions of rewriting over ground terms: terms, rules and steps, termination, relation expressions and core formulas, with the laws about
//! them. It has no code.
#![tactic(auto)]
