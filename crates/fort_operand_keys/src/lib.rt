//! Definitions of what the labels of products, of projections and of "infinitely many" ask of a
//! child's label: the classes of their operands' states there; with the laws about them. It has no
//! code.
#![tactic(auto)]
