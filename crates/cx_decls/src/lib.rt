//! Typing of declarations and units ([dcl.dcl]).
#![tactic(auto)]

mod conclusions;
mod judged;
mod specifiers;

pub use conclusions::{conclude, conclude_assertion};
pub use judged::judge_init;
pub use specifiers::{Specifiers, Times, specifiers_of};
