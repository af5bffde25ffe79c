//! Cases of the grammar, worked out by hand and computed by the checker: a text, and its tree or its first fault.
#![tactic(auto)]
