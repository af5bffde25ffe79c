//! Parses statements, blocks and what stands in them ([stmt.stmt]). No rule is inlined into another and big values stand in boxes between
//! them, so that frames stay small: 512 levels, which may nest, take little of the stack.
#![tactic(auto)]

mod ahead;
mod blocks;
mod exprs;
mod for_heads;
mod items;
mod jumps;
mod kinds;
mod labels;
mod levels;
mod loops;
mod selections;
mod sets;
mod statements;

pub use ahead::enum_ahead;
pub use levels::{block, item, stmt};
pub use sets::StartsSpecs;
