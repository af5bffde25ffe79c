//! The shapes of objects: how the parts of an object of a type are numbered, and what a number's part holds
//! ([intro.object], [basic.compound]).
#![tactic(auto)]

mod build;
mod measure;
mod shape;
mod way;

pub use build::{row_shape, type_shape};
pub use measure::{Measure, measured};
pub use shape::{Shape, size_of};
pub use way::{Piece, Way, part_at, seek, way_of};
