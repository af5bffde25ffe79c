//! The grammar of declarations, classes and units: the languages of its rules, and readers that are exact.
#![tactic(auto)]

mod laws;

pub use laws::{ends_nowhere, fronts_go_on, one_tree, readers_are_exact};
