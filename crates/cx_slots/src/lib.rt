//! The slots of objects: how a flat row of them stands for the tree of an object ([intro.object], [class.union]).
#![tactic(auto)]

pub mod laws;
mod slot;

pub use slot::SlotView;
