//! The nodes that typing makes ([conv], [expr.unary.op]).

ghost use Rattle.std.specs.Prelude.{◌≡◌, IfOk, IfErr};
ghost use Rattle.cx_ops.specs.declared.StrictOp.TheVariants as op;
ghost use Rattle.cx_typed.specs.Shown.{Within, shown};
ghost use Rattle.cx_typed.specs.Trees.{Constant, Unary};
ghost use Rattle.cx_exprs.specs.declared.answer.ElabAnswer.TheVariants as answer;
ghost use Rattle.cx_exprs.specs.Desks.{types_of};
ghost use Rattle.cx_exprs.specs.Parts.{as_value, converted, loaded, prvalue, same_type};

use crate::answer::ElabAnswer;
use crate::elab::Elab;
use cx_base::{IntType, Span};
use cx_ints::Int;
use cx_typed::{Judge, StrictOp, TExpr, TNode};
use sqlite_items::Boxed;
use std::alloc::Global;

pub(crate) fn boxed(alloc: Global, expr: TExpr) -> Result<Boxed<TExpr>, ElabAnswer>
    ensures same { IfOk result (λ b. b ≡ expr) }
    ensures memory { IfErr result (λ a. a ≡ answer.Memory) }
{
    match Boxed::new(alloc, expr) {
        Ok(boxed) => Ok(boxed),
        Err(_) => Err(ElabAnswer::Memory),
    }
}

/// Whether both are the same type.
pub(crate) fn is_same_type(a: IntType, b: IntType) -> bool
    ensures { result ≡ same_type a b }
{
    match a {
        IntType::Bool => matches!(b, IntType::Bool),
        IntType::Char => matches!(b, IntType::Char),
        IntType::SChar => matches!(b, IntType::SChar),
        IntType::UChar => matches!(b, IntType::UChar),
        IntType::Short => matches!(b, IntType::Short),
        IntType::UShort => matches!(b, IntType::UShort),
        IntType::Int => matches!(b, IntType::Int),
        IntType::UInt => matches!(b, IntType::UInt),
        IntType::Long => matches!(b, IntType::Long),
        IntType::ULong => matches!(b, IntType::ULong),
        IntType::LongLong => matches!(b, IntType::LongLong),
        IntType::ULongLong => matches!(b, IntType::ULongLong),
    }
}

/// A constant.
#[tactic(auto, using(crate::proofs::MadeNodes::constant_form, cx_typed::proofs::Views::within_constant))]
pub(crate) fn constant<J: Judge>(elab: &Elab<J>, int: Int, span: Span) -> TExpr
    ensures within { Within (types_of elab.now) result }
    ensures form { shown (types_of elab.now) result ≡ Constant int (prvalue int.ty span) }
{
    TExpr {
        node: TNode::Constant(int),
        ty: elab.int_id(int.ty),
        lvalue: false,
        span,
    }
}

/// The value of an object, where it is one ([conv.lval]).
#[tactic(auto, using(crate::proofs::MadeNodes::loaded_same, crate::proofs::MadeNodes::loaded_form, cx_typed::proofs::Views::within_load))]
pub(crate) fn load<J: Judge>(elab: &Elab<J>, expr: TExpr) -> Result<TExpr, ElabAnswer>
    requires { Within (types_of elab.now) expr }
    ensures within { IfOk result (Within (types_of elab.now)) }
    ensures form { IfOk result (λ e. shown (types_of elab.now) e ≡ loaded (shown (types_of elab.now) expr)) }
    ensures memory { IfErr result (λ a. a ≡ answer.Memory) }
{
    if !expr.lvalue {
        return Ok(expr);
    }
    let ty = elab.int_id(elab.int_type(&expr));
    let span = expr.span;
    let inner = boxed(elab.alloc(), expr)?;
    Ok(TExpr {
        node: TNode::Load(inner),
        ty,
        lvalue: false,
        span,
    })
}

/// An operation on a value, which gives one of this type.
#[tactic(auto, using(crate::proofs::MadeNodes::unary_form, cx_typed::proofs::Views::within_unary))]
pub(crate) fn operate<J: Judge>(
    elab: &Elab<J>,
    op: StrictOp,
    ty: IntType,
    expr: TExpr,
    span: Span,
) -> Result<TExpr, ElabAnswer>
    requires { Within (types_of elab.now) expr }
    ensures within { IfOk result (Within (types_of elab.now)) }
    ensures form { IfOk result (λ e. shown (types_of elab.now) e ≡ Unary op (shown (types_of elab.now) expr) (prvalue ty span)) }
    ensures memory { IfErr result (λ a. a ≡ answer.Memory) }
{
    let inner = boxed(elab.alloc(), expr)?;
    Ok(TExpr {
        node: TNode::Unary(op, inner),
        ty: elab.int_id(ty),
        lvalue: false,
        span,
    })
}

/// A value as one of this type ([conv.prom], [conv.integral], [conv.bool]).
#[tactic(auto, using(crate::proofs::MadeNodes::converted_same, crate::proofs::MadeNodes::converted_form))]
fn convert<J: Judge>(elab: &Elab<J>, ty: IntType, expr: TExpr) -> Result<TExpr, ElabAnswer>
    requires { Within (types_of elab.now) expr }
    ensures within { IfOk result (Within (types_of elab.now)) }
    ensures form { IfOk result (λ e. shown (types_of elab.now) e ≡ converted ty (shown (types_of elab.now) expr)) }
    ensures memory { IfErr result (λ a. a ≡ answer.Memory) }
{
    if is_same_type(elab.int_type(&expr), ty) {
        return Ok(expr);
    }
    let span = expr.span;
    operate(elab, StrictOp::Convert(ty), ty, expr, span)
}

/// The value of an expression, as one of this type.
pub(crate) fn as_value<J: Judge>(
    elab: &Elab<J>,
    ty: IntType,
    expr: TExpr,
) -> Result<TExpr, ElabAnswer>
    requires { Within (types_of elab.now) expr }
    ensures within { IfOk result (Within (types_of elab.now)) }
    ensures form { IfOk result (λ e. shown (types_of elab.now) e ≡ as_value ty (shown (types_of elab.now) expr)) }
    ensures memory { IfErr result (λ a. a ≡ answer.Memory) }
{
    let loaded = load(elab, expr)?;
    convert(elab, ty, loaded)
}
