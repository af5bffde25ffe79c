//! What is found of the initializers of constants ([expr]).

ghost use Rattle.std.specs.Prelude.{◌≡◌, map};
ghost use Rattle.cx_unit.specs.Exprs as spec;

use crate::found::{Broken, Found};
use crate::names::Names;
use crate::operators::{is_built, joined_found};
use cx_base::{IntType, Mark, Rule, Span};
use cx_ints::Int;
use cx_tree::{Expr, ExprKind, FunctionName, Ident, Last, Operation};

fn wrong(rule: Rule, span: Span) -> Found
    ensures { result ≡ spec.wrong rule span }
{
    Found::Wrong(Broken { rule, span })
}

fn left_out(span: Span) -> Found
    ensures { result ≡ spec.left_out span }
{
    wrong(Rule::LeftOutForm, span)
}

// A literal of type int ([lex.icon]).
fn literal(int: Int, span: Span) -> Found
    ensures { result ≡ spec.literal int span }
{
    if matches!(int.ty, IntType::Int) && -2_147_483_648 <= int.value && int.value <= 2_147_483_647 {
        Found::Value(int.value as i32)
    } else {
        left_out(span)
    }
}

fn value_of(values: &Names<i32>, name: &Ident) -> Found
    ensures { result ≡ spec.value_of values.now name.now }
{
    match values.value(name.text.as_slice()) {
        Some(value) => Found::Value(value),
        None => wrong(Rule::UnknownName, name.span),
    }
}

// A name without `::` before it or in it ([basic.lookup]).
fn named(values: &Names<i32>, name: &FunctionName, span: Span) -> Found
    ensures { result ≡ spec.named values.now name.now span }
{
    if name.global || name.scopes.len() != 0 {
        return left_out(span);
    }
    match &name.last {
        Last::Ident(name) => value_of(values, name),
        Last::Operator(_) => left_out(span),
    }
}

// The end of the last operation that is left out.
#[tactic(auto, using(crate::proofs::Walks::or_assoc, crate::proofs::Walks::or_none))]
fn left_out_end(operations: &[Operation]) -> Option<Mark>
    ensures { result ≡ spec.left_out_end (map spec.step_of operations.now) }
{
    let mut end = None;
    for operation in operations {
        if !is_built(operation.operator) {
            end = Some(operation.operand.extent.end);
        }
    }
    end
}

/// What is found of an expression behind these names.
#[tactic(auto, unfolding(crate::specs::Exprs::chained))]
pub fn found_in(values: &Names<i32>, expr: &Expr) -> Found
    ensures { result ≡ spec.found_in values.now expr.now }
{
    match &expr.kind {
        ExprKind::Number(int) => literal(int.int(), expr.extent),
        ExprKind::Name(name) => named(values, name.get(), expr.extent),
        ExprKind::Paren(inner) => found_in(values, inner.get()),
        // operations of one level, from left to right ([expr.add], [expr.mul])
        ExprKind::Chain(first, operations) => {
            let first = first.get();
            let operations = operations.as_slice();
            let start = first.extent.start;
            if let Some(end) = left_out_end(operations) {
                return left_out(Span { start, end });
            }
            let mut found = found_in(values, first);
            for operation in operations {
                let end = operation.operand.extent.end;
                let right = found_in(values, &operation.operand);
                found = joined_found(start, end, operation.operator, found, right);
            }
            found
        }
        _ => left_out(expr.extent),
    }
}
