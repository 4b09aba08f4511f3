//! Definitions of what the program is asked and what it answers, families of systems among it. It has no code.
#![tactic(auto)]
