//! Tables of cases: what is asked beside the answer that is wanted, with the test that the two agree.
#![tactic(auto)]

mod cases;
mod ints;

pub use cases::{Case, Cases, run_case};
pub use ints::{IntCase, IntCases, int_case};
