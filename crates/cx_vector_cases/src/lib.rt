//! The calls on tables of cases, tried once each.
#![tactic(auto)]

pub use cx_vectors::{int_case, run_case};

#[cfg(test)]
mod tests;
