//! The one door to the memory of an evaluation: what a store of objects promises, and what is built on that promise
//! alone.
#![tactic(auto)]

mod store;

pub use cx_state::{Birth, Kind, Phase, Scalar};
pub use store::{RootView, Store, StoreAnswer, StoreMark};
