use crate::{List, Rule, Text};

/// A place in the source.
#[derive(Clone, Copy, Debug, PartialEq, Eq)]
pub struct Mark {
    /// How many bytes stand before it.
    pub byte: u32,
    /// Its line, from 1: one more than the line feeds before it.
    pub line: u32,
    /// Its column, from 1, counted in bytes.
    pub col: u32,
}

/// A part of the source, from its first byte to just past its last. The span of the source's end is empty.
#[derive(Clone, Copy, Debug, PartialEq, Eq)]
pub struct Span {
    pub start: Mark,
    pub end: Mark,
}

/// A call that hadn't returned where a rule was broken.
#[derive(Debug, Drop)]
pub struct Frame {
    pub span: Span,
    pub name: Text,
}

/// A diagnostic: what was broken, where, and in which calls, innermost first.
#[derive(Debug, Drop)]
pub struct Diag {
    pub span: Span,
    pub rule: Rule,
    pub frames: List<Frame>,
}
