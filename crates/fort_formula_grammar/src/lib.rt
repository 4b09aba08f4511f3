//! Definitions of the text of a formula: its tokens, which tokens are which formula, its first fault. It has no code.
#![tactic(auto)]
