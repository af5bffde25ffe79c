//! How many levels an expression's text goes deeper than its own place ([gram], [implimits]).

ghost use Rattle.std.specs.Prelude.{◌≡◌, ◌<◌, ◌^◌, map};
ghost use Rattle.cx_levels.specs.Levels.{greatest, perhaps};
ghost use Rattle.cx_levels.specs.ExprLevels.{levels_of_expr, levels_of_more, levels_of_part, levels_of_operation, levels_of_args, levels_of_braces, levels_of_clause, levels_of_given, levels_of_new, levels_of_bound, levels_of_type_id, levels_within};

use cx_tree::{
    Args, Bound, Braces, Clause, Expr, ExprKind, Given, More, MoreKind, New, Operation, TypeId,
};
use sqlite_items::Boxed;

/// How many levels an expression goes deeper than its place.
#[cycle(levels)]
pub fn expr_levels(expr: &Expr) -> u32
    requires { levels_of_expr expr.now < 2 ^ 32 }
    ensures { result ≡ levels_of_expr expr.now }
{
    match &expr.kind {
        ExprKind::Paren(inner) => 1 + expr_levels(inner.get()),
        ExprKind::OfWord(_, given) | ExprKind::OfType(_, given) => given_levels(given.get()),
        ExprKind::NamedCast(_, ty, operand) | ExprKind::Cast(ty, operand) => {
            type_id_levels(ty.get()).max(1 + expr_levels(operand.get()))
        }
        ExprKind::Postfix(head, parts) => {
            expr_levels(head.get()).max(parts_levels(parts.as_slice()))
        }
        ExprKind::SizeofExpr(operand)
        | ExprKind::Prefix(_, operand)
        | ExprKind::Delete(_, operand) => 1 + expr_levels(operand.get()),
        ExprKind::SizeofType(ty) | ExprKind::AlignofType(ty) => type_id_levels(ty.get()),
        ExprKind::New(new) => new_levels(new.get()),
        ExprKind::Chain(first, operations) => {
            expr_levels(first.get()).max(operations_levels(operations.as_slice()))
        }
        ExprKind::Assign(target, _, value) => {
            expr_levels(target.get()).max(1 + expr_levels(value.get()))
        }
        ExprKind::Conditional(condition, yes_part, no_part) => {
            let parts = expr_levels(yes_part.get()).max(expr_levels(no_part.get()));
            expr_levels(condition.get()).max(1 + parts)
        }
        ExprKind::Throw(operand) => inner_levels(operand),
        ExprKind::Comma(first, others) => {
            expr_levels(first.get()).max(others_levels(others.as_slice()))
        }
        _ => 0,
    }
}

#[cycle(levels)]
fn others_levels(others: &[Expr]) -> u32
    requires { greatest (map levels_of_expr others.now) < 2 ^ 32 }
    ensures { result ≡ greatest (map levels_of_expr others.now) }
{
    let mut most = 0;
    for other in others {
        most = most.max(expr_levels(other));
    }
    most
}

#[cycle(levels)]
fn operations_levels(operations: &[Operation]) -> u32
    requires { greatest (map levels_of_operation operations.now) < 2 ^ 32 }
    ensures { result ≡ greatest (map levels_of_operation operations.now) }
{
    let mut most = 0;
    for operation in operations {
        most = most.max(expr_levels(&operation.operand));
    }
    most
}

#[cycle(levels)]
fn parts_levels(parts: &[More]) -> u32
    requires { greatest (map levels_of_more parts.now) < 2 ^ 32 }
    ensures { result ≡ greatest (map levels_of_more parts.now) }
{
    let mut most = 0;
    for part in parts {
        most = most.max(part_levels(&part.kind));
    }
    most
}

#[cycle(levels)]
fn part_levels(part: &MoreKind) -> u32
    requires { levels_of_part part.now < 2 ^ 32 }
    ensures { result ≡ levels_of_part part.now }
{
    match part {
        MoreKind::Subscript(index) => 1 + expr_levels(index),
        MoreKind::Call(args) => args_levels(args),
        _ => 0,
    }
}

#[cycle(levels)]
pub fn args_levels(args: &Args) -> u32
    requires { levels_of_args args.now < 2 ^ 32 }
    ensures { result ≡ levels_of_args args.now }
{
    let mut most = 0;
    for item in args.items.as_slice() {
        most = most.max(1 + expr_levels(item));
    }
    most
}

#[cycle(levels)]
pub fn braces_levels(braces: &Braces) -> u32
    requires { levels_of_braces braces.now < 2 ^ 32 }
    ensures { result ≡ levels_of_braces braces.now }
{
    let mut most = 0;
    for clause in braces.clauses.as_slice() {
        most = most.max(clause_levels(clause));
    }
    most
}

#[cycle(levels)]
fn clause_levels(clause: &Clause) -> u32
    requires { levels_of_clause clause.now < 2 ^ 32 }
    ensures { result ≡ levels_of_clause clause.now }
{
    match clause {
        Clause::Value(expr) => 1 + expr_levels(expr),
        Clause::Nested(braces) => 1 + braces_levels(braces),
    }
}

#[cycle(levels)]
pub fn given_levels(given: &Given) -> u32
    requires { levels_of_given given.now < 2 ^ 32 }
    ensures { result ≡ levels_of_given given.now }
{
    match given {
        Given::Args(args) => args_levels(args),
        Given::Braces(braces) => braces_levels(braces),
    }
}

#[cycle(levels)]
fn new_levels(new: &New) -> u32
    requires { levels_of_new new.now < 2 ^ 32 }
    ensures { result ≡ levels_of_new new.now }
{
    let bound = inner_levels(&new.bound);
    match &new.given {
        Some(given) => bound.max(given_levels(given)),
        None => bound,
    }
}

#[cycle(levels)]
pub fn type_id_levels(ty: &TypeId) -> u32
    requires { levels_of_type_id ty.now < 2 ^ 32 }
    ensures { result ≡ levels_of_type_id ty.now }
{
    bounds_levels(ty.bounds.as_slice())
}

#[cycle(levels)]
pub fn bounds_levels(bounds: &[Bound]) -> u32
    requires { greatest (map levels_of_bound bounds.now) < 2 ^ 32 }
    ensures { result ≡ greatest (map levels_of_bound bounds.now) }
{
    let mut most = 0;
    for bound in bounds {
        most = most.max(bound_levels(bound));
    }
    most
}

#[cycle(levels)]
fn bound_levels(bound: &Bound) -> u32
    requires { levels_of_bound bound.now < 2 ^ 32 }
    ensures { result ≡ levels_of_bound bound.now }
{
    inner_levels(&bound.size)
}

/// Of an expression that stands one level deeper, if it is there.
#[cycle(levels)]
fn inner_levels(inner: &Option<Boxed<Expr>>) -> u32
    requires { perhaps levels_within inner.now < 2 ^ 32 }
    ensures { result ≡ perhaps levels_within inner.now }
{
    match inner {
        Some(expr) => 1 + expr_levels(expr.get()),
        None => 0,
    }
}
