//! Implicit conversions, their ranks, and the function that a call chooses ([over.match], [over.best.ics]).
#![tactic(auto)]

mod convert;
mod laws;
mod rank;

pub use convert::adds_const;
pub use laws::{a_walk_finds_the_best, better_is_strict, one_is_best, the_best_is_chosen};
pub use rank::{RankKind, int_rank};
