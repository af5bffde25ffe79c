//! Whole expressions: what has no operands, and what isn't built ([expr]).

ghost use Rattle.std.specs.Prelude.{◌≡◌, [], IfOk, IfErr};
ghost use Rattle.cx_base.specs.declared.int_type.IntType.TheVariants as type;
ghost use Rattle.cx_base.specs.declared.rule.Rule.TheVariants as rule;
ghost use Rattle.cx_plain.specs.ExpressionViews.{tree, written};
ghost use Rattle.cx_plain.specs.Expressions as plain;
ghost use Rattle.cx_plain.specs.Spans.{span_of};
ghost use Rattle.cx_typed.specs.Shown.{Within, shown};
ghost use Rattle.cx_exprs.specs.declared.answer.ElabAnswer.TheVariants as answer;
ghost use Rattle.cx_exprs.specs.Desks.{IsFault, types_of, world_of};
ghost use Rattle.cx_exprs.specs.Expressions as spec;
ghost use Rattle.cx_exprs.specs.Forms as forms;
ghost use Rattle.cx_exprs.specs.Helpers as helper;
ghost use Rattle.cx_exprs.specs.Typing.{Good, node};

use crate::answer::ElabAnswer;
use crate::elab::Elab;
use crate::forms::{literal, size, type_written};
use cx_base::{IntType, Rule, Span};
use cx_ints::Int;
use cx_plain::span;
use cx_tree::{Expr, TypeId};
use cx_typed::{Judge, TExpr};

/// `sizeof(T)` and `alignof(T)` ([expr.sizeof], [expr.alignof]).
pub(crate) fn size_written<J: Judge>(
    elab: &Elab<J>,
    ty: &TypeId,
    span: Span,
) -> Result<TExpr, ElabAnswer>
    ensures within { IfOk result (Within (types_of elab.now)) }
    ensures ok { IfOk result (λ e. helper.size_of (written ty.now) span (world_of elab.now) ≡ Good (shown (types_of elab.now) e) (world_of elab.now)) }
    ensures fault { IfErr result (λ a. IsFault a (helper.size_of (written ty.now) span (world_of elab.now))) }
{
    match type_written(elab, ty) {
        Ok(ty) => Ok(size(elab, ty, span)),
        Err(answer) => Err(answer),
    }
}

/// A literal of a character ([lex.ccon]).
pub(crate) fn character<J: Judge>(
    elab: &Elab<J>,
    value: i8,
    span: Span,
) -> Result<TExpr, ElabAnswer>
    ensures within { IfOk result (Within (types_of elab.now)) }
    ensures ok { IfOk result (λ e. spec.typed (plain.Character value span) (world_of elab.now) ≡ Good (shown (types_of elab.now) e) (world_of elab.now)) }
    ensures fault { IfErr result (λ a. IsFault a (spec.typed (plain.Character value span) (world_of elab.now))) }
{
    let int = Int {
        ty: IntType::Char,
        value: value as i128,
    };
    literal(elab, int, span)
}

/// `true`, with 1, and `false`, with 0 ([lex.bool]).
pub(crate) fn truth<J: Judge>(elab: &Elab<J>, value: i128, span: Span) -> Result<TExpr, ElabAnswer>
    ensures within { IfOk result (Within (types_of elab.now)) }
    ensures ok { IfOk result (λ e. node span (forms.literal (record { ty = type.Bool; value = value }) span) (world_of elab.now) ≡ Good (shown (types_of elab.now) e) (world_of elab.now)) }
    ensures fault { IfErr result (λ a. IsFault a (node span (forms.literal (record { ty = type.Bool; value = value }) span) (world_of elab.now))) }
{
    let int = Int {
        ty: IntType::Bool,
        value,
    };
    literal(elab, int, span)
}

/// A form that isn't built.
pub(crate) fn left_out<J: Judge>(elab: &Elab<J>, expr: &Expr) -> ElabAnswer
    ensures { result ≡ answer.Fault (record { span = span_of (tree expr.now); rule = rule.LeftOutForm; frames = [] }) }
{
    elab.fault(Rule::LeftOutForm, span(expr))
}
