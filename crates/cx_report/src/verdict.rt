use cx_base::{Diag, List, Mark, Text};

/// What a report tells.
#[derive(Clone, Copy, Debug, PartialEq, Eq)]
pub enum Mode {
    /// A line for each constant and their number, or the diagnostic.
    Print,
    /// The number of constants, or the diagnostic.
    Check,
    /// As `Print`, with the calls that lead to the diagnostic.
    Notes,
}

#[derive(Clone, Copy, Debug, PartialEq, Eq)]
pub enum LineKind {
    Constexpr,
}

#[derive(Clone, Copy, Debug, PartialEq, Eq)]
pub enum Value {
    Int(i128),
}

/// A required constant with its value.
#[derive(Debug, Drop)]
pub struct Line {
    pub start: Mark,
    pub kind: LineKind,
    pub name: Text,
    pub value: Value,
    pub text: Text,
}

#[derive(Debug, Drop)]
pub enum Verdict {
    Accepted(List<Line>),
    Refused(Diag),
}
