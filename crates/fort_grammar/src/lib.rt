//! Definitions of the text of a problem: its forms, which forms are a problem, its first fault. It has no code.
#![tactic(auto)]
