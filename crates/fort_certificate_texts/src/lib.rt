//! Laws alone: the text that is written for a certificate is read as its steps again, behind any text without a fault.
#![tactic(auto)]
