//! Places of one object kept as columns and slots: moving and comparing them, and what they may be used for ([expr.add],
//! [expr.eq], [expr.rel], [dcl.type.cv], [class.cdtor]).
#![tactic(auto)]

mod compare;
pub mod laws;
mod life;
mod meet;
mod seal;
mod seat;
mod walk;

pub use compare::{equal_at, less_at};
pub use life::{active_at, call_at, dynamic_at};
pub use seal::{sealed_at, whole_row};
pub use seat::{add_at, distance_at};
pub use walk::step_at;
