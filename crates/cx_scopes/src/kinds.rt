//! What a name may mean, and the scopes in which names stand.
use cx_base::{List, Text};
use cx_type_defs::{ClassId, EnumId, FuncId, TypeId, VarId};

/// Why a declaration or a lookup isn't answered.
#[derive(Clone, Copy, Debug, PartialEq, Eq)]
pub enum LookAnswer {
    /// No declaration of the name is found ([basic.lookup.general]).
    Unknown,
    /// The scope has the name with a meaning that can't stand beside this one ([basic.scope.scope]).
    Redeclared,
    /// Two bases give the name different meanings ([class.member.lookup]).
    Ambiguous,
    /// Memory ran out.
    Memory,
}

/// A scope that keeps its declarations when it is left: a namespace by its number in order of first entry, the global
/// one being number 0, a class or an enumeration.
#[derive(Clone, Copy, Debug, PartialEq, Eq)]
#[derive_where(Hash)]
pub enum ScopeId {
    Space(u32),
    Class(ClassId),
    Enum(EnumId),
}

/// What a name means.
#[derive(Clone, Copy, Debug, PartialEq, Eq)]
pub enum Entity {
    Function(FuncId),
    Variable(VarId),
    /// A data member of a class, by its place among them.
    Field(ClassId, u32),
    /// An enumerator, by its place in its enumeration.
    Enumerator(EnumId, u32),
    /// A class, an enumeration or an alias of a type.
    Named(TypeId),
    /// A namespace.
    Space(ScopeId),
}

/// Which meanings a lookup counts.
#[derive(Clone, Copy)]
pub enum Sought {
    /// Each meaning ([basic.lookup.unqual]).
    Meaning,
    /// Namespaces and types alone, as before `::` ([basic.lookup.qual]).
    Qualifier,
    /// What no class has, as for the functions of an operator ([over.match.oper]).
    NonMember,
}

/// What a lookup finds, in order of declaration.
pub type Found = List<Entity>;

/// A scope that is entered ([basic.scope]).
#[derive(Debug, Drop)]
pub enum ScopeKind {
    /// A namespace, by its name in the scope where it is entered ([basic.scope.namespace]).
    Namespace(Text),
    /// A class with its direct bases in order ([basic.scope.class]).
    Class(ClassId, List<ClassId>),
    Enum(EnumId),
    /// A function's parameters ([basic.scope.param]).
    Function(FuncId),
    Block,
}
