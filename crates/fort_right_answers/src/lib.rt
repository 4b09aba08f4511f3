//! Laws alone: each formula that is decided has a right answer, and a part over a cap with reduced tables is over it without.
#![tactic(auto)]
