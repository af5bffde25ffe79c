//! Names.

use crate::operators::Overloaded;
use cx_base::{List, Span, Text};

/// An identifier where it stands.
#[derive(Drop)]
pub struct Ident {
    pub text: Text,
    pub span: Span,
}

/// A destructor's name, from its `~` on ([class.dtor]).
#[derive(Drop)]
pub struct DestructorName {
    pub class: Ident,
    pub span: Span,
}

/// A type's name with the names that it is sought in ([dcl.type.simple]), from its first token on.
#[derive(Drop)]
pub struct TypeName {
    /// Whether `::` stands before it.
    pub global: bool,
    pub scopes: List<Ident>,
    pub name: Ident,
    pub span: Span,
}

/// An operator that is a function's name, from the word `operator` on ([over.oper]).
#[derive(Clone, Copy)]
pub struct OperatorName {
    pub operator: Overloaded,
    pub span: Span,
}

/// The name that a function's or variable's name ends in ([expr.prim.id]).
#[derive(Drop)]
pub enum Last {
    Ident(Ident),
    Operator(OperatorName),
}

/// A function's or variable's name with the names that it is sought in ([expr.prim.id.qual]), from its first token on.
#[derive(Drop)]
pub struct FunctionName {
    /// Whether `::` stands before it.
    pub global: bool,
    pub scopes: List<Ident>,
    pub last: Last,
    pub span: Span,
}
