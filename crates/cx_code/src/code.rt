use crate::Instr;
use cx_base::{List, Span, Text};
use cx_type_defs::{TypeId, TypeKind};

/// What an operand is, by its type without const.
#[derive(Clone, Copy, Debug, PartialEq, Eq)]
pub enum CellKind {
    /// A value of a scalar type.
    Value(TypeKind),
    /// Where something of the type is.
    Place(TypeKind),
    /// Where an array is that a new-expression made, of elements of the type ([expr.new]).
    Array(TypeId),
}

/// An instruction, and the part of the source that it is for.
#[derive(Debug, Drop)]
pub struct Step {
    pub instr: Instr,
    pub span: Span,
}

/// The code of a function, of a default member initializer, or of a full-expression.
///
/// It begins with its parameters as operands, the last on top; where its result is of class type, the place of the
/// result is one of them. A place in it is the number of steps that are left there.
#[derive(Debug, Drop)]
pub struct Code {
    pub steps: List<Step>,
    /// The qualified name of its function.
    pub name: Text,
    pub parameters: List<CellKind>,
    pub result: Option<CellKind>,
}
