use crate::ids::{ClassId, FuncId, TypeId};
use cx_base::{IntType, List, Span, Text};

/// The word that a class is declared with ([class.pre]).
#[derive(Clone, Copy, Debug, PartialEq, Eq)]
pub enum ClassKey {
    Struct,
    Class,
    Union,
}

/// A data member: its name and type, where it is declared, and its default member initializer ([class.mem]).
#[derive(Debug, Drop)]
pub struct Field {
    pub name: Text,
    pub ty: TypeId,
    pub at: Span,
    pub init: Option<FuncId>,
}

/// What is known of a class's special members and of how it may be made ([class.prop], [dcl.init.aggr]).
#[derive(Clone, Copy, Debug, PartialEq, Eq)]
pub struct ClassFlags {
    pub aggregate: bool,
    /// It has a constexpr constructor that isn't a copy constructor.
    pub constexpr_ctor: bool,
    pub constexpr_dtor: bool,
    pub trivial_ctor: bool,
    pub trivial_copy: bool,
    pub trivial_dtor: bool,
    pub virtual_dtor: bool,
    /// It has a virtual function, declared or inherited.
    pub has_virtual: bool,
}

/// What a class's definition says.
#[derive(Debug, Drop)]
pub struct ClassBody {
    pub bases: List<ClassId>,
    pub fields: List<Field>,
    /// The final overrider of each virtual function: first those of the bases' slots, base by base, then one for
    /// each virtual function that the class declares and that overrides none ([class.virtual]).
    pub slots: List<FuncId>,
    /// The functions that it declares `= 0` ([class.abstract]).
    pub pures: List<FuncId>,
    pub flags: ClassFlags,
}

/// A class; it has no body while it is incomplete.
#[derive(Debug, Drop)]
pub struct ClassDecl {
    pub name: Text,
    pub key: ClassKey,
    pub body: Option<ClassBody>,
}

/// The underlying type of an enumeration whose list is ended, and its least and greatest enumerator.
#[derive(Clone, Copy, Debug, PartialEq, Eq)]
pub struct EnumEnd {
    pub under: IntType,
    pub low: i128,
    pub high: i128,
}

/// An enumeration ([dcl.enum]); `fixed` is the underlying type where its declaration names one.
#[derive(Debug, Drop)]
pub struct EnumDecl {
    pub name: Text,
    pub scoped: bool,
    pub fixed: Option<IntType>,
    pub end: Option<EnumEnd>,
}

/// How many bytes an object takes, and of what its address is a multiple ([basic.align], [expr.sizeof]).
#[derive(Clone, Copy, Debug, PartialEq, Eq)]
pub struct Extent {
    pub size: u64,
    pub align: u64,
}
