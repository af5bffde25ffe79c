//! Moving, comparing and enclosing places of records ([expr.add], [expr.eq], [expr.rel], [class.cdtor]).
#![tactic(auto)]

mod compare;
mod enclose;
mod known;
mod meet;
mod moves;
mod seat;

pub use compare::{distance, equal, less};
pub use enclose::outer;
pub use moves::add;
