//! Syntax trees of a translation unit ([gram]): one variant for each alternative of the grammar, with the parts of the source that they
//! stand for.
#![tactic(auto)]

mod decls;
mod exprs;
mod names;
mod operators;
mod specifiers;
mod stmts;

pub use cx_base::{Span, Text};
pub use cx_ints::Literal;
pub use decls::{
    Access, Alias, Assert, Base, Body, Class, ClassBody, Constructor, ConstructorBody, Decl,
    DeclKind, Destructor, Entity, EntityKind, Enumeration, EnumerationKind, Enumerator, Function,
    Member, MemberInit, MemberKind, MemberName, Namespace, Param, Tail, Typedef, Unit, Virtual,
};
pub use exprs::{
    Args, Bound, Braces, CastWord, Clause, Expr, ExprKind, Given, More, MoreKind, New, Operation,
    Reach, TypeId,
};
pub use names::{DestructorName, FunctionName, Ident, Last, OperatorName, TypeName};
pub use operators::{AssignOp, BinaryOp, Overloaded, PrefixOp};
pub use specifiers::{
    ClassKey, Elaboration, Modifier, ModifierWord, Named, Ptrs, SimpleType, Specs, SpecsType, Star,
    TypeWord, WordOrModifier,
};
pub use stmts::{
    Block, ForStart, Init, InitKind, Item, Label, LabelKind, Local, Returned, Stmt, StmtKind,
    SwitchItem, Var,
};
