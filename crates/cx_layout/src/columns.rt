use cx_type_defs::{ClassId, Step, TypeId};

/// A class: how many bases and members it has, and whether it is a union ([class.mem]).
#[derive(Clone, Copy)]
pub struct ClassParts {
    pub class: ClassId,
    pub is_union: bool,
    pub bases: u32,
    pub members: u32,
}

/// What a node is: a scalar or reference, so many elements, or a class.
#[derive(Clone, Copy)]
pub enum Kind {
    Scalar,
    Array(u32),
    Class(ClassParts),
}

/// Of which node a node is a part, by which step, and at which cell of it.
#[derive(Clone, Copy)]
pub struct Under {
    pub parent: u32,
    pub step: Step,
    pub offset: u32,
}

/// A node: its kind, how many cells it has, from where on its bases and its members are listed, and of what it is a part.
#[derive(Clone, Copy)]
pub struct Node {
    pub kind: Kind,
    pub cells: u32,
    pub bases_from: u32,
    pub members_from: u32,
    pub under: Under,
}

/// The nodes of a type in pre-order, and for each class the nodes of its bases and of its members.
#[derive(Drop)]
pub struct Columns {
    pub nodes: Vec<Node>,
    pub parts: Vec<u32>,
}

/// The nodes of a type, or of an array of so many of it.
#[derive(Drop)]
pub struct Descriptor {
    pub ty: TypeId,
    pub length: Option<u32>,
    pub columns: Columns,
}
