//! Laws alone: words and bytes are owed one answer.
#![tactic(auto)]
