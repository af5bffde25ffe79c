//! The names of types of a unit, found in its list of tokens before it is parsed.
#![tactic(auto)]

mod behind;
mod closers;
mod laws;
mod name_set;
mod places;
mod role;

pub use laws::{groups_are_spelled, members};
pub use name_set::NameSet;
pub use places::type_names;
