//! What the declarations of a unit give ([dcl.dcl]).

use crate::judge::Value;
use cx_base::{Diag, List, Mark, Text};

/// What a report tells.
#[derive(Clone, Copy, Debug, PartialEq, Eq)]
pub enum Mode {
    /// A line for each constant and their number, or the diagnostic.
    Print,
    /// The number of constants, or the diagnostic.
    Check,
    /// As `Print`, with the calls that lead to the diagnostic.
    Notes,
}

/// Which required constant it is.
#[derive(Clone, Copy, Debug, PartialEq, Eq)]
pub enum LineKind {
    /// A constexpr variable ([dcl.constexpr]).
    Constexpr,
    /// The condition of a `static_assert` ([dcl.pre]).
    Assert,
}

/// A required constant with its value, and that value's text.
#[derive(Debug, Drop)]
pub struct Line {
    pub start: Mark,
    pub kind: LineKind,
    pub name: Text,
    pub value: Value,
    pub text: Text,
}

/// The constants of a unit, or the first rule that it breaks.
#[derive(Debug, Drop)]
pub enum Verdict {
    Accepted(List<Line>),
    Refused(Diag),
}
