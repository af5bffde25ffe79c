//! The plain store of objects, by which others are measured: trees of records ([intro.object]).
#![tactic(auto)]

mod store;

pub use cx_records::{End, Place};
pub use cx_store::{Birth, Kind, Phase, RootView, Scalar, Store, StoreAnswer, StoreMark};
pub use store::TreeStore;
