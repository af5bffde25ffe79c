//! A unit's verdict, and its report.
#![tactic(auto)]

mod decls;
mod exprs;
mod found;
mod names;
mod operators;
mod units;

pub use cx_report::{Line, LineKind, Mode, Value, Verdict, report, summary};
pub use units::{run_unit, too_long, verdict_of_lexed, verdict_on};
