//! Declarations ([dcl.dcl], [class]).

use crate::exprs::{Bound, Expr, Given, TypeId};
use crate::names::{DestructorName, FunctionName, Ident, TypeName};
use crate::specifiers::{ClassKey, Modifier, Ptrs, Specs};
use crate::stmts::{Block, Var};
use cx_base::{List, Span, Text};

/// A translation unit ([basic.link]).
#[derive(Drop)]
pub struct Unit {
    pub decls: List<Decl>,
}

/// A declaration.
#[cycle(decl)]
#[derive(Drop)]
pub struct Decl {
    pub kind: DeclKind,
    pub span: Span,
}

/// What a declaration is.
#[cycle(decl)]
#[derive(Drop)]
pub enum DeclKind {
    Empty,
    Namespace(Namespace),
    Assert(Assert),
    Alias(Alias),
    Typedef(Typedef),
    Enum(Enumeration),
    Class(Class),
    Entity(Entity),
}

/// A namespace, by its name or by several, one in another ([namespace.def]).
#[cycle(decl)]
#[derive(Drop)]
pub struct Namespace {
    /// How many levels its attributes nest.
    pub attrs: u32,
    /// At least one.
    pub names: List<Ident>,
    pub decls: List<Decl>,
}

/// `static_assert` ([dcl.pre]).
#[derive(Drop)]
pub struct Assert {
    pub condition: Expr,
    /// The message, in pieces.
    pub message: Option<List<Text>>,
    pub span: Span,
}

/// `using T = ..` ([dcl.typedef]).
#[derive(Drop)]
pub struct Alias {
    pub name: Ident,
    /// How many levels its attributes nest.
    pub attrs: u32,
    pub ty: TypeId,
    pub span: Span,
}

/// [dcl.typedef]
#[derive(Drop)]
pub struct Typedef {
    pub specs: Specs,
    pub ptrs: Ptrs,
    pub name: Ident,
    pub span: Span,
}

/// An enumeration ([dcl.enum]).
#[derive(Drop)]
pub struct Enumeration {
    /// How many levels its attributes nest.
    pub attrs: u32,
    pub kind: EnumerationKind,
    pub span: Span,
}

/// Which enumeration it is.
#[derive(Drop)]
pub enum EnumerationKind {
    /// Whether it is scoped, its name, its type, and its enumerators if they stand there.
    Named(bool, Ident, Option<Specs>, Option<List<Enumerator>>),
    /// Its type and its enumerators.
    Unnamed(Option<Specs>, List<Enumerator>),
}

/// An enumerator, with its value if it is written.
#[derive(Drop)]
pub struct Enumerator {
    pub name: Ident,
    /// How many levels its attributes nest.
    pub attrs: u32,
    pub value: Option<Expr>,
    pub span: Span,
}

/// A class ([class.pre]).
#[cycle(class)]
#[derive(Drop)]
pub struct Class {
    pub key: ClassKey,
    /// How many levels its attributes nest.
    pub attrs: u32,
    pub name: Ident,
    /// What stands behind the name, if it is a definition.
    pub body: Option<ClassBody>,
    pub span: Span,
}

/// The definition of a class ([class.mem], [class.derived]).
#[cycle(class)]
#[derive(Drop)]
pub struct ClassBody {
    pub is_final: bool,
    pub bases: List<Base>,
    pub members: List<Member>,
}

/// A base class ([class.derived]).
#[derive(Drop)]
pub struct Base {
    /// How many levels its attributes nest.
    pub attrs: u32,
    pub access: Option<Access>,
    pub name: TypeName,
    pub span: Span,
}

/// [class.access]
#[derive(Clone, Copy, Debug, PartialEq, Eq)]
pub enum Access {
    Public,
    Protected,
    Private,
}

/// A member of a class, or what stands between members.
#[cycle(class)]
#[derive(Drop)]
pub struct Member {
    pub kind: MemberKind,
    pub span: Span,
}

/// What a member is ([class.mem]).
#[cycle(class)]
#[derive(Drop)]
pub enum MemberKind {
    Access(Access),
    Empty,
    Assert(Assert),
    Alias(Alias),
    Typedef(Typedef),
    Enum(Enumeration),
    Class(Class),
    Constructor(Constructor),
    Destructor(Destructor),
    Entity(Entity),
}

/// [class.ctor]
#[derive(Drop)]
pub struct Constructor {
    /// How many levels its attributes nest.
    pub attrs: u32,
    pub modifiers: List<Modifier>,
    pub name: Ident,
    pub params: List<Param>,
    /// How many levels its `noexcept` nests.
    pub noexcept: u32,
    pub body: ConstructorBody,
}

/// What a constructor's declaration ends in.
#[derive(Drop)]
pub enum ConstructorBody {
    Tail(Tail),
    Block(List<MemberInit>, Block),
}

/// A member initializer ([class.base.init]).
#[derive(Drop)]
pub struct MemberInit {
    pub name: MemberName,
    pub given: Given,
    pub span: Span,
}

/// What a member initializer names.
#[derive(Drop)]
pub enum MemberName {
    Type(TypeName),
    Ident(Ident),
}

/// [class.dtor]
#[derive(Drop)]
pub struct Destructor {
    /// How many levels its attributes nest.
    pub attrs: u32,
    pub modifiers: List<Modifier>,
    pub name: DestructorName,
    /// How many levels its `noexcept` nests.
    pub noexcept: u32,
    pub virtuals: List<Virtual>,
    pub body: Body,
}

/// A word behind a member function ([class.virtual]).
#[derive(Clone, Copy, Debug, PartialEq, Eq)]
pub enum Virtual {
    Override,
    Final,
}

/// What a function's declaration ends in.
#[derive(Drop)]
pub enum Body {
    Tail(Tail),
    Block(Block),
}

/// The end of a declaration without a block.
#[derive(Clone, Copy, Debug, PartialEq, Eq)]
pub enum Tail {
    Plain,
    /// `= default` ([dcl.fct.def.default])
    Default,
    /// `= delete` ([dcl.fct.def.delete])
    Delete,
    /// `= 0` ([class.abstract])
    Pure,
}

/// Variables, or a function.
#[derive(Drop)]
pub struct Entity {
    /// How many levels its attributes nest.
    pub attrs: u32,
    pub specs: Specs,
    pub kind: EntityKind,
}

/// Which of both it is.
#[derive(Drop)]
pub enum EntityKind {
    Vars(List<Var>),
    Function(Function),
}

/// A function behind its specifiers ([dcl.fct]).
#[derive(Drop)]
pub struct Function {
    pub ptrs: Ptrs,
    pub name: FunctionName,
    pub params: List<Param>,
    pub is_const: bool,
    /// How many levels its `noexcept` nests.
    pub noexcept: u32,
    pub virtuals: List<Virtual>,
    pub body: Body,
}

/// A parameter ([dcl.fct]).
#[derive(Drop)]
pub struct Param {
    /// How many levels its attributes nest.
    pub attrs: u32,
    pub specs: Specs,
    pub ptrs: Ptrs,
    pub name: Option<Ident>,
    pub bounds: List<Bound>,
    pub default: Option<Expr>,
    pub span: Span,
}
