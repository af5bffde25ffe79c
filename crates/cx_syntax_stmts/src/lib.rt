//! The grammar of statements and blocks: the languages of its rules, and readers that are exact.
#![tactic(auto)]

mod laws;
mod parts;

pub use laws::{ends_nowhere, fronts_go_on, one_tree, readers_are_exact};
pub use parts::{BehindAttrs, ForHead};
