//! The top call over memory, in each mode, and over a source and a sink that never fail.
#![tactic(auto)]

#[cfg(test)]
mod cause_tests;
#[cfg(test)]
mod mode_tests;
mod never_failing;
#[cfg(test)]
mod piece_tests;
#[cfg(test)]
mod runs;

pub use never_failing::answered;
