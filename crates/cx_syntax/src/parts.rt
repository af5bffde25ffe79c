//! What a rule reads by the way, and no tree keeps.

use cx_tree::{AssignOp, DestructorName, Expr, FunctionName};
use sqlite_items::Boxed;

/// What stands behind the chain of an assignment expression ([expr.ass], [expr.cond]).
#[derive(Drop)]
pub enum Tail {
    /// An assignment operator and its right operand.
    Assigned(AssignOp, Boxed<Expr>),
    /// The operands between `?` and `:` and behind `:`.
    Chosen(Boxed<Expr>, Boxed<Expr>),
}

/// What stands behind `.` or `->` ([expr.ref]).
#[derive(Drop)]
pub enum MemberPart {
    Name(FunctionName),
    /// `~T()` ([expr.prim.id.dtor])
    Destructor(DestructorName),
}
