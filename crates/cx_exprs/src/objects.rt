//! One of two objects or values ([expr.cond]).

ghost use Rattle.std.specs.Prelude.{◌≡◌, ◌<◌, length, true, false, IfOk, IfErr};
ghost use Rattle.cx_type_defs.specs.Same.{form_of};
ghost use Rattle.cx_typed.specs.Shown.{Within, shown};
ghost use Rattle.cx_typed.specs.Trees.{Conditional, note_of};
ghost use Rattle.cx_exprs.specs.declared.answer.ElabAnswer.TheVariants as answer;
ghost use Rattle.cx_exprs.specs.Desks.{types_of};
ghost use Rattle.cx_exprs.specs.Forms as forms;

use crate::answer::ElabAnswer;
use crate::elab::Elab;
use crate::nodes::{as_value, boxed, is_same_type};
use crate::operators::between;
use cx_base::{IntType, Span};
use cx_typed::{Judge, TExpr, TNode};
use cx_types::{TypeId, TypeKind};

/// The integer type that an object has, and whether it is const.
#[derive(Clone, Copy)]
pub struct ObjectType {
    pub ty: IntType,
    pub konst: bool,
}

#[tactic(auto, using(crate::proofs::ObjectForms::object_int, crate::proofs::ObjectForms::object_other))]
fn object_of<J: Judge>(elab: &Elab<J>, id: TypeId) -> Option<ObjectType>
    requires { id.0 < length (types_of elab.now).rows }
    ensures { result ≡ forms.object_of (form_of true (types_of elab.now) id) }
{
    let row = elab.row(id);
    match row.kind {
        TypeKind::Int(ty) => Some(ObjectType {
            ty,
            konst: row.konst,
        }),
        _ => None,
    }
}

fn same_objects(left: Option<ObjectType>, right: Option<ObjectType>) -> bool
    ensures { result ≡ forms.same_objects left right }
{
    match left {
        Some(left) => match right {
            Some(right) => is_same_type(left.ty, right.ty) && left.konst == right.konst,
            None => false,
        },
        None => false,
    }
}

#[tactic(auto, using(cx_typed::proofs::Views::type_within, crate::proofs::ObjectForms::alike_is))]
fn are_alike<J: Judge>(elab: &Elab<J>, left: &TExpr, right: &TExpr) -> bool
    requires left { Within (types_of elab.now) left.now }
    requires right { Within (types_of elab.now) right.now }
    ensures { result ≡ forms.are_alike (note_of (shown (types_of elab.now) left.now)) (note_of (shown (types_of elab.now) right.now)) }
{
    let same = same_objects(object_of(elab, left.ty), object_of(elab, right.ty));
    left.lvalue && (right.lvalue && same)
}

/// One of two operands of one type.
#[tactic(auto, using(cx_typed::proofs::Views::within_conditional, cx_typed::proofs::Views::shown_conditional))]
fn chosen<J: Judge>(
    elab: &Elab<J>,
    condition: TExpr,
    left: TExpr,
    right: TExpr,
    ty: TypeId,
    lvalue: bool,
    span: Span,
) -> Result<TExpr, ElabAnswer>
    requires condition { Within (types_of elab.now) condition }
    requires left { Within (types_of elab.now) left }
    requires right { Within (types_of elab.now) right }
    requires known { ty.0 < length (types_of elab.now).rows }
    ensures within { IfOk result (Within (types_of elab.now)) }
    ensures form { IfOk result (λ e. shown (types_of elab.now) e ≡ Conditional (shown (types_of elab.now) condition) (shown (types_of elab.now) left) (shown (types_of elab.now) right) (record { ty = form_of true (types_of elab.now) ty; lvalue = lvalue; span = span })) }
    ensures memory { IfErr result (λ a. a ≡ answer.Memory) }
{
    let condition = boxed(elab.alloc(), condition)?;
    let left = boxed(elab.alloc(), left)?;
    let right = boxed(elab.alloc(), right)?;
    Ok(TExpr {
        node: TNode::Conditional(condition, left, right),
        ty,
        lvalue,
        span,
    })
}

/// `c ? a : b`, which is one of two values ([expr.cond]).
#[tactic(auto, using(crate::proofs::ObjectForms::value_chosen))]
fn of_values<J: Judge>(
    elab: &Elab<J>,
    condition: TExpr,
    left: TExpr,
    right: TExpr,
    span: Span,
) -> Result<TExpr, ElabAnswer>
    requires condition { Within (types_of elab.now) condition }
    requires left { Within (types_of elab.now) left }
    requires right { Within (types_of elab.now) right }
    ensures within { IfOk result (Within (types_of elab.now)) }
    ensures form { IfOk result (λ e. shown (types_of elab.now) e ≡ forms.chosen false (shown (types_of elab.now) condition) (shown (types_of elab.now) left) (shown (types_of elab.now) right) span) }
    ensures memory { IfErr result (λ a. a ≡ answer.Memory) }
{
    let ty = between(elab.int_type(&left), elab.int_type(&right));
    let left = as_value(elab, ty, left)?;
    let right = as_value(elab, ty, right)?;
    let made = chosen(elab, condition, left, right, elab.int_id(ty), false, span)?;
    Ok(made)
}

/// `c ? a : b` ([expr.cond]).
#[tactic(auto, using(cx_typed::proofs::Views::type_within, crate::proofs::ObjectForms::object_chosen, crate::proofs::ObjectForms::chosen_by))]
pub(crate) fn conditional<J: Judge>(
    elab: &Elab<J>,
    condition: TExpr,
    left: TExpr,
    right: TExpr,
    span: Span,
) -> Result<TExpr, ElabAnswer>
    requires condition { Within (types_of elab.now) condition }
    requires left { Within (types_of elab.now) left }
    requires right { Within (types_of elab.now) right }
    ensures within { IfOk result (Within (types_of elab.now)) }
    ensures form { IfOk result (λ e. shown (types_of elab.now) e ≡ (forms.conditional (shown (types_of elab.now) condition) (shown (types_of elab.now) left) (shown (types_of elab.now) right) span).form) }
    ensures memory { IfErr result (λ a. a ≡ answer.Memory) }
{
    let condition = as_value(elab, IntType::Bool, condition)?;
    if are_alike(elab, &left, &right) {
        let ty = left.ty;
        let lvalue = left.lvalue;
        let made = chosen(elab, condition, left, right, ty, lvalue, span)?;
        return Ok(made);
    }
    let made = of_values(elab, condition, left, right, span)?;
    Ok(made)
}
