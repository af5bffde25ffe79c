//! Descriptors: the nodes of a type in pre-order, and the places of its objects ([intro.object], [basic.compound]).
#![tactic(auto)]

mod columns;
mod enclose;
pub mod laws;
mod lay;
mod layouts;
mod place;
mod steps;
mod walk;

pub use columns::{ClassParts, Columns, Kind, Node, Under};
pub use layouts::Layouts;
pub use place::Place;
