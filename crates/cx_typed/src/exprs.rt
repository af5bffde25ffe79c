//! Typed expressions: each conversion, and each reading of an object, is a node of its own ([expr], [conv]).

use cx_base::{IntType, List, Span};
use cx_ints::Int;
use cx_ops::StrictOp;
use cx_types::{TypeId, VarId};
use sqlite_items::Boxed;

/// A typed expression.
#[cycle(typed)]
#[derive(Drop)]
pub struct TExpr {
    pub node: TNode,
    pub ty: TypeId,
    pub lvalue: bool,
    pub span: Span,
}

/// What a typed expression is.
#[cycle(typed)]
#[derive(Drop)]
pub enum TNode {
    Constant(Int),
    /// The object of a variable ([expr.prim.id]).
    Variable(VarId),
    /// The value of an object ([conv.lval]).
    Load(Boxed<TExpr>),
    /// A conversion, or an operator with one operand ([conv], [expr.unary.op]).
    Unary(StrictOp, Boxed<TExpr>),
    /// Operations from left to right, each on all before it: the first operand, the operations but the last, and the
    /// last one, whose type and place are those of the whole.
    Chain(Boxed<TExpr>, List<TStep>, Boxed<TPart>),
    /// `c ? a : b` ([expr.cond]).
    Conditional(Boxed<TExpr>, Boxed<TExpr>, Boxed<TExpr>),
}

/// An operation of a chain: what stands left of it may be converted first.
#[cycle(typed)]
#[derive(Drop)]
pub struct TPart {
    pub left: Option<Conversion>,
    pub op: ChainOp,
    pub operand: TExpr,
}

/// An operation of a chain before the last one, with the type and place of what it and all before it are.
#[cycle(typed)]
#[derive(Drop)]
pub struct TStep {
    pub part: TPart,
    pub ty: TypeId,
    pub lvalue: bool,
    pub span: Span,
}

/// A conversion to an integer type, and the number of that type ([conv.prom], [conv.integral]).
#[derive(Clone, Copy, Debug, PartialEq, Eq)]
pub struct Conversion {
    pub to: IntType,
    pub ty: TypeId,
}

/// What joins two operands.
#[derive(Clone, Copy, Debug, PartialEq, Eq)]
pub enum ChainOp {
    Strict(StrictOp),
    /// `&&` ([expr.log.and])
    And,
    /// `||` ([expr.log.or])
    Or,
    /// `,` ([expr.comma])
    Comma,
}
