//! Typed expressions and programs, what they mean, and what a judge of constants promises ([expr], [expr.const]).
#![tactic(auto)]

mod exprs;
mod judge;
pub mod laws;
mod lines;
mod program;
mod texts;

pub use cx_ops::StrictOp;
pub use cx_state::{JudgeMode, Root};
pub use exprs::{ChainOp, Conversion, TExpr, TNode, TPart, TStep};
pub use judge::{Full, FullBody, Judge, KeptPlace, KeptValue, Outcome, Value};
pub use lines::{Line, LineKind, Mode, Verdict};
pub use program::{Program, TVariable};
pub use texts::value_text;
