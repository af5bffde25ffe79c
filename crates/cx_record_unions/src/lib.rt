//! Unions of the plain store: making a member the active one, and leaving a union without one ([class.union]).
#![tactic(auto)]

mod change;
mod renew;
mod target;

pub use change::{activate, deactivate};
