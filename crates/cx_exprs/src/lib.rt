//! Typing of expressions and initializers ([expr], [dcl.init]).
#![tactic(auto)]

mod answer;
mod chains;
mod desk;
mod elab;
mod exprs;
mod forms;
mod ints;
mod names;
mod nodes;
mod objects;
mod operators;
mod words;

pub use answer::ElabAnswer;
pub use elab::Elab;
