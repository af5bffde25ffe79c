//! Literals, operators before their operand, casts and sizes ([expr]).

ghost use Rattle.std.specs.Prelude.{◌≡◌, pos, IfOk, IfErr, false};
ghost use Rattle.cx_plain.specs.ExpressionViews.{written};
ghost use Rattle.cx_typed.specs.Shown.{Within, shown, vars_shown};
ghost use Rattle.cx_typed.specs.Well.{WellTyped, types_of as variable_types};
ghost use Rattle.cx_exprs.specs.declared.answer.ElabAnswer.TheVariants as answer;
ghost use Rattle.cx_exprs.specs.Desks.{IsFault, types_of, world_of};
ghost use Rattle.cx_exprs.specs.Forms as forms;
ghost use Rattle.cx_exprs.specs.Operators.{planned_prefix};
ghost use Rattle.cx_exprs.specs.Parts.{fits_outcome, holds_all, loaded, type_of};
ghost use Rattle.cx_exprs.specs.TypeWords as words;
ghost use Rattle.cx_exprs.specs.Typing.{Good, node};

use crate::answer::ElabAnswer;
use crate::elab::Elab;
use crate::nodes::{as_value, constant, load, operate};
use crate::operators::planned_prefix;
use crate::words::{Consts, consts_of, int_in, named_type, specifiers_rule, word_named};
use cx_base::{IntType, Rule, Span};
use cx_ints::{Int, fits};
use cx_tree::{PrefixOp, Ptrs, SimpleType, TypeId};
use cx_typed::{Full, FullBody, Judge, JudgeMode, Outcome, StrictOp, TExpr, Value};

/// A literal ([lex.icon], [lex.ccon], [lex.bool]).
pub(crate) fn literal<J: Judge>(elab: &Elab<J>, int: Int, span: Span) -> Result<TExpr, ElabAnswer>
    ensures within { IfOk result (Within (types_of elab.now)) }
    ensures ok { IfOk result (λ e. node span (forms.literal int span) (world_of elab.now) ≡ Good (shown (types_of elab.now) e) (world_of elab.now)) }
    ensures fault { IfErr result (λ a. IsFault a (node span (forms.literal int span) (world_of elab.now))) }
{
    if !fits(int.value, int.ty) {
        return Err(elab.fault(Rule::NumberRange, span));
    }
    Ok(constant(elab, int, span))
}

/// An operator before its operand ([expr.unary.op]).
#[tactic(auto, using(crate::proofs::FormsMade::unary_made))]
pub(crate) fn unary<J: Judge>(
    elab: &Elab<J>,
    operator: PrefixOp,
    operand: TExpr,
    span: Span,
) -> Result<TExpr, ElabAnswer>
    requires { Within (types_of elab.now) operand }
    ensures within { IfOk result (Within (types_of elab.now)) }
    ensures form { IfOk result (λ e. shown (types_of elab.now) e ≡ (forms.unary (planned_prefix operator (type_of (shown (types_of elab.now) operand))) (shown (types_of elab.now) operand) span).form) }
    ensures memory { IfErr result (λ a. a ≡ answer.Memory) }
{
    let plan = planned_prefix(operator, elab.int_type(&operand));
    let value = as_value(elab, plan.operand, operand)?;
    let made = operate(elab, plan.op, plan.operand, value, span)?;
    Ok(made)
}

/// A cast ([expr.static.cast], [expr.type.conv]).
pub(crate) fn cast<J: Judge>(
    elab: &Elab<J>,
    ty: IntType,
    operand: TExpr,
    span: Span,
) -> Result<TExpr, ElabAnswer>
    requires { Within (types_of elab.now) operand }
    ensures within { IfOk result (Within (types_of elab.now)) }
    ensures form { IfOk result (λ e. shown (types_of elab.now) e ≡ (forms.cast ty (shown (types_of elab.now) operand) span).form) }
    ensures memory { IfErr result (λ a. a ≡ answer.Memory) }
{
    let value = load(elab, operand)?;
    let made = operate(elab, StrictOp::Convert(ty), ty, value, span)?;
    Ok(made)
}

/// A value made from nothing ([dcl.init]).
pub(crate) fn zero<J: Judge>(elab: &Elab<J>, ty: IntType, span: Span) -> TExpr
    ensures within { Within (types_of elab.now) result }
    ensures form { shown (types_of elab.now) result ≡ forms.zero_of ty span }
{
    constant(elab, Int { ty, value: 0 }, span)
}

fn size_of(ty: IntType) -> i128
    ensures { result ≡ pos (forms.size_of ty) }
{
    match ty {
        IntType::Bool | IntType::Char | IntType::SChar | IntType::UChar => 1,
        IntType::Short | IntType::UShort => 2,
        IntType::Int | IntType::UInt => 4,
        IntType::Long | IntType::ULong => 8,
        IntType::LongLong | IntType::ULongLong => 8,
    }
}

/// How many bytes an object of the type takes, and of what its address is a multiple ([expr.sizeof], [expr.alignof]).
pub(crate) fn size<J: Judge>(elab: &Elab<J>, ty: IntType, span: Span) -> TExpr
    ensures within { Within (types_of elab.now) result }
    ensures form { shown (types_of elab.now) result ≡ forms.size ty span }
{
    constant(
        elab,
        Int {
            ty: IntType::ULong,
            value: size_of(ty),
        },
        span,
    )
}

fn is_decorated(ptrs: &Ptrs, bounds: usize) -> bool
    ensures { result ≡ words.is_decorated ptrs.now bounds }
{
    ptrs.stars.len() != 0 || (ptrs.is_reference || bounds != 0)
}

/// A type without a name ([dcl.name]).
#[tactic(auto, using(crate::proofs::FormsMade::type_told, crate::proofs::FormsMade::type_decorated, crate::proofs::FormsMade::type_plain))]
pub(crate) fn type_written<J: Judge>(elab: &Elab<J>, ty: &TypeId) -> Result<IntType, ElabAnswer>
    ensures ok { IfOk result (λ t. words.type_written (written ty.now) (world_of elab.now) ≡ Good t (world_of elab.now)) }
    ensures fault { IfErr result (λ a. IsFault a (words.type_written (written ty.now) (world_of elab.now))) }
{
    let named = named_type(&ty.specs.ty);
    if let Some(rule) = specifiers_rule(named, consts_of(&ty.specs)) {
        return Err(elab.fault(rule, ty.specs.span));
    }
    if is_decorated(&ty.ptrs, ty.bounds.len()) {
        return Err(elab.fault(Rule::LeftOutForm, ty.span));
    }
    Ok(int_in(named))
}

/// A type of one word ([expr.type.conv]).
pub(crate) fn word_type<J: Judge>(elab: &Elab<J>, ty: SimpleType) -> Result<IntType, ElabAnswer>
    ensures ok { IfOk result (λ t. words.word_type ty (world_of elab.now) ≡ Good t (world_of elab.now)) }
    ensures fault { IfErr result (λ a. IsFault a (words.word_type ty (world_of elab.now))) }
{
    let named = word_named(ty.word);
    if let Some(rule) = specifiers_rule(named, Consts::Missing) {
        return Err(elab.fault(rule, ty.span));
    }
    Ok(int_in(named))
}
