//! What operators do to values of int ([expr.add], [expr.mul]).

ghost use Rattle.std.specs.Prelude.{◌≡◌};
ghost use Rattle.cx_unit.specs.Exprs as spec;

use crate::found::Found;
use cx_base::{Mark, Span};
use cx_tree::BinaryOp;

/// Whether constants have the operator.
pub fn is_built(operator: BinaryOp) -> bool
    ensures { result ≡ spec.is_built operator }
{
    matches!(
        operator,
        BinaryOp::Add | BinaryOp::Subtract | BinaryOp::Multiply
    )
}

fn exact(operator: BinaryOp, a: i32, b: i32) -> Option<i32>
    ensures { spec.IsExact operator a b result }
{
    match operator {
        BinaryOp::Subtract => a.checked_sub(b),
        BinaryOp::Multiply => a.checked_mul(b),
        _ => a.checked_add(b),
    }
}

fn in_range(start: Mark, end: Mark, operator: BinaryOp, a: i32, b: i32) -> Found
    ensures { result ≡ spec.in_range start end (spec.joined operator a b) }
{
    match exact(operator, a, b) {
        Some(value) => Found::Value(value),
        None => Found::OutOfRange(Span { start, end }),
    }
}

// The left operand's value is known.
fn behind_value(start: Mark, end: Mark, operator: BinaryOp, a: i32, right: Found) -> Found
    ensures { result ≡ spec.joined_found start end operator (Found.Value a) right }
{
    match right {
        Found::Wrong(broken) => Found::Wrong(broken),
        Found::OutOfRange(span) => Found::OutOfRange(span),
        Found::Value(b) => in_range(start, end, operator, a, b),
    }
}

// The left operand has an operation out of range; a right operand that is wrong comes first.
fn first_fault(span: Span, right: Found) -> Found
    ensures { result ≡ spec.first_fault span right }
{
    match right {
        Found::Wrong(broken) => Found::Wrong(broken),
        _ => Found::OutOfRange(span),
    }
}

/// What is found of an operation, from what was found of its operands. Both are walked before any value is known.
pub fn joined_found(start: Mark, end: Mark, operator: BinaryOp, left: Found, right: Found) -> Found
    ensures { result ≡ spec.joined_found start end operator left right }
{
    match left {
        Found::Wrong(broken) => Found::Wrong(broken),
        Found::OutOfRange(span) => first_fault(span, right),
        Found::Value(a) => behind_value(start, end, operator, a, right),
    }
}
