//! How many levels deep a translation unit's text goes ([gram], [implimits]).
#![tactic(auto)]

mod decl_depth;
mod expr_depth;
mod stmt_depth;

pub use decl_depth::levels;
