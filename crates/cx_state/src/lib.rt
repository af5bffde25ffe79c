//! The state of objects: what an object is, how its parts are named, which rule an access breaks, and what each step
//! on objects changes ([intro.object], [basic.life], [class.union], [expr.const]).
#![tactic(auto)]

mod kind;
pub mod laws;
mod root;

pub use kind::{Birth, Kind, Phase, Scalar};
pub use root::{JudgeMode, Root};
