//! The tree of a unit's tokens ([gram]), or the first token that no unit goes on with.
#![tactic(auto)]

mod laws;
mod names;
mod parsing;

pub use laws::one_answer;
pub use parsing::{ParseAnswer, parse_unit};
