//! The grammar of attributes and of the declarations without statements: the languages of its rules, and readers that are exact.
#![tactic(auto)]

mod laws;

pub use laws::{ends_nowhere, fronts_go_on, levels_are_counted, one_tree, readers_are_exact};
