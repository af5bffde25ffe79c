//! A judge of constants that recurs on typed expressions, and along no chain ([expr.const]). It serves as long as no
//! function is called.
#![tactic(auto)]

mod eval;
mod judging;
mod steps;

pub use judging::ThinJudge;
