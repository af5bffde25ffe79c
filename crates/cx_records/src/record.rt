use crate::place::Place;
use cx_shapes::Shape;
use cx_state::{Birth, Kind, Phase, Scalar};
use cx_types::TypeId;

/// What was put at a part's number: a scalar's value, a class's phase, or a union's active member.
#[derive(Clone, Copy, Debug)]
pub enum Content {
    Value(Scalar<Place>),
    Phase(Phase),
    Member(u32),
}

/// What is kept of an object's parts.
#[derive(Debug, Drop)]
pub enum Contents {
    /// Nothing: no scalar has a value, no union an active member, and each class is in this phase.
    Same(Phase),
    /// Each part's, by its number.
    Each(Vec<Content>),
}

/// An object.
#[derive(Drop)]
pub struct Record {
    pub ty: TypeId,
    pub count: Option<u32>,
    pub kind: Kind,
    pub konst: bool,
    pub birth: Birth,
    pub released: bool,
    pub counted: bool,
    pub cells: u32,
    pub shape: Shape,
    pub contents: Contents,
}
