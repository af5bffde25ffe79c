//! What a rule reads by the way, and no tree keeps.

use cx_base::List;
use cx_tree::{Expr, ForStart, Ident, Ptrs, Specs, StmtKind, Var};
use sqlite_items::Boxed;

/// What stands in the parentheses of a `for`.
#[derive(Drop)]
pub enum ForHead {
    /// What stands before the first `;`, the condition and the step ([stmt.for]).
    Steps(Boxed<ForStart>, Option<Boxed<Expr>>, Option<Boxed<Expr>>),
    /// The variable and the range ([stmt.ranged]).
    Range(Boxed<Specs>, Ptrs, Ident, Boxed<Expr>),
}

/// What stands behind attributes in a block.
#[derive(Drop)]
pub enum BehindAttrs {
    Stmt(StmtKind),
    Vars(Specs, List<Var>),
}
