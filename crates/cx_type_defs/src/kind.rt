use crate::ids::{ClassId, EnumId, TypeId};
use cx_base::IntType;

/// The form of a type ([basic.types], [basic.compound]).
#[derive(Clone, Copy, Debug, PartialEq, Eq)]
#[derive_where(Hash)]
pub enum TypeKind {
    Void,
    Nullptr,
    Int(#[derive_where(skip(Hash))] IntType),
    Enum(EnumId),
    Pointer(TypeId),
    Reference(TypeId),
    /// The type of the elements, and how many there are.
    Array(TypeId, u32),
    Class(ClassId),
}

/// A type: its form, and whether it is const ([basic.type.qualifier]).
#[derive(Clone, Copy, Debug, PartialEq, Eq, Hash)]
pub struct TypeRow {
    pub kind: TypeKind,
    pub konst: bool,
}
