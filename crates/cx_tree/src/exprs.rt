//! Expressions, and what stands in them ([expr]).

use crate::names::{DestructorName, FunctionName, TypeName};
use crate::operators::{AssignOp, BinaryOp, PrefixOp};
use crate::specifiers::{Ptrs, SimpleType, Specs, Star};
use cx_base::{List, Span, Text};
use cx_ints::Literal;
use sqlite_items::Boxed;

/// An expression.
#[cycle(expr)]
#[derive(Drop)]
pub struct Expr {
    /// From its first token to its last, parentheses round it counted.
    pub extent: Span,
    pub kind: ExprKind,
}

/// What an expression is.
#[cycle(expr)]
#[derive(Drop)]
pub enum ExprKind {
    /// [lex.icon]
    Number(Literal),
    /// [lex.ccon]
    Char(i8),
    /// One string in pieces ([lex.string]).
    Str(List<Text>),
    True,
    False,
    Nullptr,
    This,
    /// An expression in parentheses ([expr.prim.paren]).
    Paren(Boxed<Expr>),
    /// [expr.prim.id]
    Name(Boxed<FunctionName>),
    /// `int(e)`, `int{e}` ([expr.type.conv]).
    OfWord(SimpleType, Boxed<Given>),
    /// `T(e)`, `T{e}` ([expr.type.conv]).
    OfType(Boxed<TypeName>, Boxed<Given>),
    /// `static_cast<T>(e)` and the like ([expr.static.cast], [expr.const.cast], [expr.reinterpret.cast]).
    NamedCast(CastWord, Boxed<TypeId>, Boxed<Expr>),
    /// A head and what stands behind it, at least one part, each an operation on all before it ([expr.post]).
    Postfix(Boxed<Expr>, List<More>),
    /// `sizeof e` ([expr.sizeof]).
    SizeofExpr(Boxed<Expr>),
    /// [expr.unary.op], [expr.pre.incr]
    Prefix(PrefixOp, Boxed<Expr>),
    /// `sizeof(T)` ([expr.sizeof]).
    SizeofType(Boxed<TypeId>),
    /// `alignof(T)` ([expr.alignof]).
    AlignofType(Boxed<TypeId>),
    /// `delete e`, and whether `[]` stands behind the word ([expr.delete]).
    Delete(bool, Boxed<Expr>),
    /// [expr.new]
    New(Boxed<New>),
    /// `(T)e` ([expr.cast]).
    Cast(Boxed<TypeId>, Boxed<Expr>),
    /// Operations of one level, at least one, from left to right, each on all before it.
    Chain(Boxed<Expr>, List<Operation>),
    /// [expr.ass]
    Assign(Boxed<Expr>, AssignOp, Boxed<Expr>),
    /// `c ? a : b` ([expr.cond]).
    Conditional(Boxed<Expr>, Boxed<Expr>, Boxed<Expr>),
    /// `throw`, `throw e` ([expr.throw]).
    Throw(Option<Boxed<Expr>>),
    /// `a, b, c`: the first and the others, at least one ([expr.comma]).
    Comma(Boxed<Expr>, List<Expr>),
}

/// An operator and its right operand.
#[cycle(expr)]
#[derive(Drop)]
pub struct Operation {
    pub operator: BinaryOp,
    pub operand: Expr,
}

/// A part behind a head, and where this part stands.
#[cycle(expr)]
#[derive(Drop)]
pub struct More {
    pub kind: MoreKind,
    pub span: Span,
}

/// What stands behind a head ([expr.post]).
#[cycle(expr)]
#[derive(Drop)]
pub enum MoreKind {
    /// `[e]` ([expr.sub]).
    Subscript(Expr),
    /// `(a, b)` ([expr.call]).
    Call(Args),
    Increment,
    Decrement,
    /// `.name`, `->name` ([expr.ref]).
    Member(Reach, Boxed<FunctionName>),
    /// `.~T()`, `->~T()` ([expr.prim.id.dtor]).
    Destroy(Reach, DestructorName),
}

/// How a member is reached.
#[derive(Clone, Copy, Debug, PartialEq, Eq)]
pub enum Reach {
    Dot,
    Arrow,
}

/// The word of a named cast.
#[derive(Clone, Copy, Debug, PartialEq, Eq)]
pub enum CastWord {
    Static,
    Const,
    Reinterpret,
}

/// Arguments in parentheses, which the span counts.
#[cycle(expr)]
#[derive(Drop)]
pub struct Args {
    pub items: List<Expr>,
    pub span: Span,
}

/// Clauses in braces, which the span counts ([dcl.init.list]).
#[cycle(expr)]
#[derive(Drop)]
pub struct Braces {
    pub clauses: List<Clause>,
    pub span: Span,
}

/// What stands in braces.
#[cycle(expr)]
#[derive(Drop)]
pub enum Clause {
    Value(Expr),
    Nested(Braces),
}

/// What an object is made from.
#[cycle(expr)]
#[derive(Drop)]
pub enum Given {
    Args(Args),
    Braces(Braces),
}

/// `new T`, `new T[e]`, with what the object is made from ([expr.new]).
#[cycle(expr)]
#[derive(Drop)]
pub struct New {
    pub specs: Specs,
    pub stars: List<Star>,
    pub bound: Option<Boxed<Expr>>,
    pub given: Option<Given>,
}

/// An array's bound, with its brackets ([dcl.array]).
#[cycle(expr)]
#[derive(Drop)]
pub struct Bound {
    pub size: Option<Boxed<Expr>>,
    pub span: Span,
}

/// A type without a name ([dcl.name]).
#[cycle(expr)]
#[derive(Drop)]
pub struct TypeId {
    pub specs: Specs,
    pub ptrs: Ptrs,
    pub bounds: List<Bound>,
    pub span: Span,
}
