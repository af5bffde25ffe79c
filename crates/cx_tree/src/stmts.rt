//! Statements ([stmt.stmt]), and variables.

use crate::decls::{Alias, Assert, Enumeration, Typedef};
use crate::exprs::{Args, Bound, Braces, Expr};
use crate::names::Ident;
use crate::specifiers::{Ptrs, Specs};
use cx_base::{List, Span};
use sqlite_items::Boxed;

/// Items in braces ([stmt.block]).
#[cycle(stmt)]
#[derive(Drop)]
pub struct Block {
    pub items: List<Item>,
    /// The closing brace.
    pub close: Span,
    pub span: Span,
}

/// What stands in a block.
#[cycle(stmt)]
#[derive(Drop)]
pub enum Item {
    Stmt(Stmt),
    Assert(Assert),
    Alias(Alias),
    Typedef(Typedef),
    Enum(Enumeration),
    Local(Local),
}

/// A statement.
#[cycle(stmt)]
#[derive(Drop)]
pub struct Stmt {
    /// How many levels its attributes nest.
    pub attrs: u32,
    pub kind: StmtKind,
    pub span: Span,
}

/// What a statement is.
#[cycle(stmt)]
#[derive(Drop)]
pub enum StmtKind {
    Block(Block),
    Empty,
    /// [stmt.expr]
    Expr(Expr),
    /// Whether `constexpr` stands behind the word, the condition, the statement, and that behind `else` ([stmt.if]).
    If(bool, Expr, Boxed<Stmt>, Option<Boxed<Stmt>>),
    /// The word, the condition and the body ([stmt.while]).
    While(Span, Expr, Boxed<Stmt>),
    /// The word, the body and the condition ([stmt.do]).
    Do(Span, Boxed<Stmt>, Expr),
    /// The word, what stands before the first `;`, the condition, the step and the body ([stmt.for]).
    For(Span, ForStart, Option<Expr>, Option<Expr>, Boxed<Stmt>),
    /// The word, the variable, the range and the body ([stmt.ranged]).
    ForRange(Span, Specs, Ptrs, Ident, Expr, Boxed<Stmt>),
    /// [stmt.switch]
    Switch(Expr, List<SwitchItem>),
    /// The word ([stmt.break]).
    Break(Span),
    /// The word ([stmt.cont]).
    Continue(Span),
    /// [stmt.return]
    Return(Option<Returned>),
}

/// What a `for` begins with.
#[derive(Drop)]
pub enum ForStart {
    Local(Local),
    Expr(Option<Expr>),
}

/// What stands in the braces of a `switch`.
#[cycle(stmt)]
#[derive(Drop)]
pub enum SwitchItem {
    Label(Label),
    Item(Item),
}

/// A label of a `switch` ([stmt.label]).
#[derive(Drop)]
pub struct Label {
    pub kind: LabelKind,
    pub span: Span,
}

/// What a label is.
#[derive(Drop)]
pub enum LabelKind {
    Case(Expr),
    Default,
}

/// What a `return` gives.
#[derive(Drop)]
pub enum Returned {
    Value(Expr),
    List(Braces),
}

/// Variables of a block ([dcl.pre]).
#[derive(Drop)]
pub struct Local {
    /// How many levels its attributes nest.
    pub attrs: u32,
    pub specs: Specs,
    pub vars: List<Var>,
    pub span: Span,
}

/// A variable or data member ([dcl.decl]).
#[derive(Drop)]
pub struct Var {
    pub ptrs: Ptrs,
    pub name: Ident,
    /// How many levels its attributes nest.
    pub attrs: u32,
    pub bounds: List<Bound>,
    pub init: Option<Init>,
    pub span: Span,
}

/// An initializer.
#[derive(Drop)]
pub struct Init {
    pub kind: InitKind,
    pub span: Span,
}

/// What an initializer is ([dcl.init]).
#[derive(Drop)]
pub enum InitKind {
    /// `= e`
    Equals(Expr),
    /// `= {a, b}`
    EqualsList(Braces),
    /// `{a, b}`
    DirectList(Braces),
    /// `(a, b)`
    Direct(Args),
}
