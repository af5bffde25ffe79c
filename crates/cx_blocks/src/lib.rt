//! A store of objects as flat rows of slots: each has its descriptor's number and its slots ([intro.object], [basic.life]).
#![tactic(auto)]

mod block;
mod blocks;
mod fresh;
mod make;
mod show;
mod store;
mod told;

pub use blocks::Blocks;
pub use cx_layout::Place;
pub use cx_slots::SlotView;
pub use cx_store::{Birth, Kind, Phase, RootView, Scalar, Store, StoreAnswer, StoreMark};
