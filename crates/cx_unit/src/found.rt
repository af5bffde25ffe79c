//! What a walk finds.

use cx_base::{Rule, Span};

/// A rule that is broken, and where.
#[derive(Clone, Copy, Debug, PartialEq, Eq)]
pub struct Broken {
    pub rule: Rule,
    pub span: Span,
}

/// What a walk over an expression finds.
#[derive(Clone, Copy, Debug, PartialEq, Eq)]
pub enum Found {
    /// The expression breaks a rule, whatever the values are.
    Wrong(Broken),
    /// An operation whose exact result isn't in the range of int ([expr.pre]).
    OutOfRange(Span),
    Value(i32),
}
