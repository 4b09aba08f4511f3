//! Definitions of certificates: their text, when one is in order, which one is written, and what one proves; of open formulas too. It has
//! no code.
#![tactic(auto)]
