//! Why a call of a case gives nothing.

use cx_base::Rule;
use std::alloc::AllocError;

/// Why a call gives nothing.
#[derive(Clone, Copy)]
pub enum Stop {
    /// The call breaks this rule.
    Rule(Rule),
    /// The case asks what a store needn't answer, or isn't written as a case.
    NotAsked,
    Memory,
}

impl From<AllocError> for Stop {
    fn from(_: AllocError) -> Stop {
        Stop::Memory
    }
}

/// The answer of a call that gives nothing but a rule.
pub(crate) fn done(answer: Result<(), Rule>) -> Result<(), Stop> {
    answer.map_err(Stop::Rule)
}
