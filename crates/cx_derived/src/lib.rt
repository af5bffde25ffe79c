//! Whether a class is derived from another, by how many ways, and by which steps ([class.derived]).
#![tactic(auto)]

mod laws;
mod path;
mod walk;

pub use laws::{ways_are_steps, ways_stay};
pub use path::steps;
pub use walk::{Ways, derived_by};
