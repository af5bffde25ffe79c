//! Parses expressions ([expr]). No rule is inlined into another, so that frames stay small: 512 levels, which may nest, take little of
//! the stack.
#![tactic(auto)]

mod chains;
mod exprs;
mod grammar;
mod heads;
mod levels;
mod lists;
mod operands;
mod postfix;

pub use levels::{LEVELS, assign, bounds, braces, cond, expr, given, paren_args, typeid};
