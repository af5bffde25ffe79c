//! Operations behind an expression: chains stay lists ([expr.mul] to [expr.log.or], [expr.comma]).

ghost use Rattle.std.specs.Prelude.{◌≡◌, ◌<◌, ◌++◌, [], ◌∷◌, length, Some, None, true, false, IfOk, IfErr};
ghost use Rattle.cx_type_defs.specs.Same.{form_of};
ghost use Rattle.cx_typed.specs.Shown.{Within, shown};
ghost use Rattle.cx_typed.specs.Trees.{note_of};
ghost use Rattle.cx_exprs.specs.declared.answer.ElabAnswer.TheVariants as answer;
ghost use Rattle.cx_exprs.specs.Chains.{Converts, KnownPart, behind};
ghost use Rattle.cx_exprs.specs.Desks.{types_of, world_of};
ghost use Rattle.cx_exprs.specs.Forms as forms;
ghost use Rattle.cx_exprs.specs.Parts.{type_of};
ghost use Rattle.cx_exprs.specs.Typing.{Good, node};

use crate::answer::ElabAnswer;
use crate::elab::Elab;
use crate::nodes::{as_value, boxed, is_same_type, load};
use crate::operators::planned;
use cx_base::{IntType, List, Span};
use cx_tree::BinaryOp;
use cx_typed::{ChainOp, Conversion, Judge, TExpr, TNode, TPart, TStep};
use cx_types::TypeId;
use sqlite_items::Boxed;
use std::alloc::Global;

fn boxed_part(alloc: Global, part: TPart) -> Result<Boxed<TPart>, ElabAnswer>
    ensures same { IfOk result (λ b. b ≡ part) }
    ensures memory { IfErr result (λ a. a ≡ answer.Memory) }
{
    match Boxed::new(alloc, part) {
        Ok(boxed) => Ok(boxed),
        Err(_) => Err(ElabAnswer::Memory),
    }
}

fn with_step(steps: List<TStep>, step: TStep) -> Result<List<TStep>, ElabAnswer>
    ensures more { IfOk result (λ all. all ≡ steps ++ step ∷ []) }
    ensures memory { IfErr result (λ a. a ≡ answer.Memory) }
{
    let mut all = steps;
    match all.push(step) {
        Ok(()) => Ok(all),
        Err(_) => Err(ElabAnswer::Memory),
    }
}

/// An operation behind an expression. Behind a chain it comes to its operations.
#[tactic(auto, using(crate::proofs::Chained::append_new, crate::proofs::Chained::append_more, crate::proofs::Chained::within_new, crate::proofs::Chained::within_more))]
fn append<J: Judge>(
    elab: &Elab<J>,
    left: TExpr,
    part: TPart,
    ty: TypeId,
    lvalue: bool,
    span: Span,
) -> Result<TExpr, ElabAnswer>
    requires left { Within (types_of elab.now) left }
    requires part { KnownPart (types_of elab.now) part }
    requires known { ty.0 < length (types_of elab.now).rows }
    ensures within { IfOk result (Within (types_of elab.now)) }
    ensures form { IfOk result (λ e. shown (types_of elab.now) e ≡ behind (types_of elab.now) (shown (types_of elab.now) left) part.left part.op (shown (types_of elab.now) part.operand) (record { ty = form_of true (types_of elab.now) ty; lvalue = lvalue; span = span })) }
    ensures memory { IfErr result (λ a. a ≡ answer.Memory) }
{
    let alloc = elab.alloc();
    let part = boxed_part(alloc, part)?;
    let TExpr {
        node: left_node,
        ty: left_ty,
        lvalue: left_lvalue,
        span: left_span,
    } = left;
    match left_node {
        TNode::Chain(first, steps, last) => {
            let step = TStep {
                part: last.into_inner(),
                ty: left_ty,
                lvalue: left_lvalue,
                span: left_span,
            };
            let steps = with_step(steps, step)?;
            let node = TNode::Chain(first, steps, part);
            Ok(TExpr {
                node,
                ty,
                lvalue,
                span,
            })
        }
        left_node => {
            let inner = TExpr {
                node: left_node,
                ty: left_ty,
                lvalue: left_lvalue,
                span: left_span,
            };
            let first = boxed(alloc, inner)?;
            let node = TNode::Chain(first, List::new(alloc), part);
            Ok(TExpr {
                node,
                ty,
                lvalue,
                span,
            })
        }
    }
}

/// The conversion of what stands left, if it has another type.
fn left_conversion<J: Judge>(elab: &Elab<J>, from: IntType, to: IntType) -> Option<Conversion>
    ensures known { (c : _) → result ≡ Some c → c.ty.0 < length (types_of elab.now).rows }
    ensures converted { Converts (types_of elab.now) from to result }
{
    if is_same_type(from, to) {
        return None;
    }
    Some(Conversion {
        to,
        ty: elab.int_id(to),
    })
}

/// An operator with two operands ([expr.mul] to [expr.log.or]).
#[tactic(auto, using(crate::proofs::Chained::binary_form))]
pub(crate) fn binary<J: Judge>(
    elab: &Elab<J>,
    operator: BinaryOp,
    left: TExpr,
    right: TExpr,
    span: Span,
) -> Result<TExpr, ElabAnswer>
    requires left { Within (types_of elab.now) left }
    requires right { Within (types_of elab.now) right }
    ensures within { IfOk result (Within (types_of elab.now)) }
    ensures form { IfOk result (λ e. shown (types_of elab.now) e ≡ (forms.binary operator (shown (types_of elab.now) left) (shown (types_of elab.now) right) span).form) }
    ensures memory { IfErr result (λ a. a ≡ answer.Memory) }
{
    let from = elab.int_type(&left);
    let plan = planned(operator, from, elab.int_type(&right));
    let left = load(elab, left)?;
    let operand = as_value(elab, plan.right, right)?;
    let part = TPart {
        left: left_conversion(elab, from, plan.left),
        op: plan.op,
        operand,
    };
    let made = append(elab, left, part, elab.int_id(plan.result), false, span)?;
    Ok(made)
}

/// `a, b` ([expr.comma]).
#[tactic(auto, using(crate::proofs::Chained::comma_form, cx_typed::proofs::Views::type_within))]
pub(crate) fn comma<J: Judge>(
    elab: &Elab<J>,
    left: TExpr,
    right: TExpr,
    span: Span,
) -> Result<TExpr, ElabAnswer>
    requires left { Within (types_of elab.now) left }
    requires right { Within (types_of elab.now) right }
    ensures within { IfOk result (Within (types_of elab.now)) }
    ensures form { IfOk result (λ e. shown (types_of elab.now) e ≡ (forms.comma (shown (types_of elab.now) left) (shown (types_of elab.now) right) span).form) }
    ensures memory { IfErr result (λ a. a ≡ answer.Memory) }
{
    let ty = right.ty;
    let lvalue = right.lvalue;
    let part = TPart {
        left: None,
        op: ChainOp::Comma,
        operand: right,
    };
    append(elab, left, part, ty, lvalue, span)
}
