//! Runs lists of calls on a store of objects, and writes what each call answered.
#![tactic(auto)]

mod ask;
mod change;
mod make;
mod parts;
mod reach;
mod sample;
mod script;
mod seat;
mod stop;
mod tell;
mod value;
mod words;

pub use sample::Sample;
pub use script::{Tried, run};
pub use stop::Stop;
