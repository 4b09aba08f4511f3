//! Definitions alone: the parts of a core formula over a system, when tuples are alike at one, when an answer tells its truth, and that
//! merging a table's states makes no difference to an answer.
#![tactic(auto)]
