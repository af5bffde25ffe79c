//! The part of a proved parser that names no rule: languages by combinators, what an exact reader of one is, and a
//! cursor over tokens. `docs/GRAMMAR.md` says how a rule is stated and proved with it.
#![tactic(auto)]

mod cursor;
mod repeat;
mod stop;

pub use cursor::{Cursor, Pick, Test};
pub use repeat::{Part, read_many, read_others, read_upto};
pub use stop::ParseStop;
