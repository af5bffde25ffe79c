//! What a verdict on a unit is, and its report.
#![tactic(auto)]

mod reports;
mod verdict;

pub use reports::{report, summary};
pub use verdict::{Line, LineKind, Mode, Value, Verdict};
