use cx_type_defs::{Extent, TypeId};

/// What is kept of a type, complete or not.
#[derive(Clone, Copy, Debug)]
pub struct Facts {
    pub depth: u32,
    pub cells: u32,
    pub nodes: u32,
    pub literal: bool,
}

/// What is kept of an interned type that isn't a class: an array of any dimension has `count` elements of the type
/// `leaf`, which isn't an array; another type is its own leaf.
#[derive(Clone, Copy, Debug)]
pub struct RowFacts {
    pub facts: Facts,
    pub count: u32,
    pub leaf: TypeId,
}

/// What is kept of a complete class; it has no extent where the profile gives none.
#[derive(Clone, Copy, Debug)]
pub struct Measure {
    pub facts: Facts,
    pub extent: Option<Extent>,
}
