//! Definitions of tree automata and of anchored ground tree transducers: their closure, which is reachability, their compositions, and
//! the transducer of an expression. It has no code.
#![tactic(auto)]
