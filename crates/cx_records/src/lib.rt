//! Objects as records: each has its shape, and the contents of its parts by their numbers ([intro.object]).
#![tactic(auto)]

mod check;
mod make;
mod parts;
mod place;
mod read;
mod record;
mod seal;
mod store;
mod walk;
mod whole;
mod write;

pub use check::{Condition, first_broken, without};
pub use cx_store::{Birth, Kind, Phase, RootView, Scalar, StoreAnswer, StoreMark};
pub use place::{End, Place};
pub use record::{Content, Contents, Record};
pub use seal::part_row;
pub use store::Records;
pub use walk::{Standing, both, dead_at, either, is_dead_phase, open_at};
pub use write::whole_row;
