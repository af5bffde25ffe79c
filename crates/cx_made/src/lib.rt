//! A unit that is made from a seed.
#![tactic(auto)]

mod made;

pub use made::made_unit;
