//! Code for a stack machine: its instructions, what they mean over the state of objects, and where each leads
//! ([expr.const], [intro.execution]).
#![tactic(auto)]

mod code;
mod instr;
pub mod laws;
mod way;

pub use code::{CellKind, Code, Step};
pub use instr::{Access, Called, Callee, Constant, Instr, Making, Name, Part, Pointing, Shuffle};
pub use way::{Way, way_of};
