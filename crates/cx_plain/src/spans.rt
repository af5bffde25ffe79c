//! Where expressions and their operations stand.

ghost use Rattle.std.specs.Prelude.{◌≡◌};
ghost use Rattle.cx_plain.specs.ExpressionViews.{tree};
ghost use Rattle.cx_plain.specs.Spans.{from_to, span_of};

use cx_base::Span;
use cx_tree::{Expr, ExprKind};

/// The span of an operation: from the first token of its chain's first operand to the last of its own right operand, parentheses round
/// an operand counted ([expr.mul] to [expr.log.or], [expr.comma]).
pub fn operation_span(first: &Expr, operand: &Expr) -> Span
    ensures { result ≡ from_to first.now.extent operand.now.extent }
{
    Span {
        start: first.extent.start,
        end: operand.extent.end,
    }
}

/// The span of an expression: in parentheses it is that of what stands inside ([expr.prim.paren]). It takes as many steps as parentheses
/// stand round the expression.
#[tactic(auto, using(crate::proofs::SpanForms::spans), unfolding(crate::specs::ExpressionViews::tree, crate::specs::ExpressionViews::placed))]
pub fn span(expr: &Expr) -> Span
    ensures { result ≡ span_of (tree expr.now) }
{
    match &expr.kind {
        ExprKind::Paren(inner) => span(inner.get()),
        ExprKind::Postfix(head, parts) => match parts.as_slice().last() {
            Some(part) => Span {
                start: head.get().extent.start,
                end: part.span.end,
            },
            None => span(head.get()),
        },
        ExprKind::Chain(first, operations) => match operations.as_slice().last() {
            Some(operation) => operation_span(first.get(), &operation.operand),
            None => span(first.get()),
        },
        ExprKind::Comma(first, others) => match others.as_slice().last() {
            Some(other) => operation_span(first.get(), other),
            None => span(first.get()),
        },
        _ => expr.extent,
    }
}
