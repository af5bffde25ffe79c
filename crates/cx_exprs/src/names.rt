//! Names in expressions ([expr.prim.id], [basic.lookup]).

ghost use Rattle.std.specs.Prelude.{◌≡◌, ◌<◌, length, IfOk, IfErr};
ghost use Rattle.cx_scopes.specs.Lookup.{find_answer};
ghost use Rattle.cx_typed.specs.Shown.{Within, shown, vars_shown};
ghost use Rattle.cx_exprs.specs.declared.answer.ElabAnswer.TheVariants as answer;
ghost use Rattle.cx_exprs.specs.Desks.{IsFault, named_shown, types_of, world_of};
ghost use Rattle.cx_exprs.specs.Forms as forms;
ghost use Rattle.cx_exprs.specs.Typing.{Good};

use crate::answer::ElabAnswer;
use crate::elab::Elab;
use cx_base::{Memory, Rule, Span};
use cx_scopes::Entity;
use cx_tree::{FunctionName, Last};
use cx_typed::{Judge, TExpr, TNode};
use cx_types::{TypeId, VarId};

/// A variable that a name means, with its type.
#[derive(Clone, Copy)]
pub struct NamedVariable {
    pub variable: VarId,
    pub ty: TypeId,
}

fn first_meant<J: Judge>(elab: &Elab<J>, found: &[Entity]) -> Result<NamedVariable, Rule>
    ensures known { IfOk result (λ v. v.ty.0 < length (types_of elab.now).rows) }
    ensures meant { named_shown (types_of elab.now) result ≡ forms.first_meant (vars_shown elab.now.program) found.now }
{
    match found.first() {
        None => Err(Rule::UnknownName),
        Some(Entity::Variable(variable)) => elab.variable(*variable),
        Some(Entity::Named(_)) => Err(Rule::NameKind),
        Some(Entity::Space(_)) => Err(Rule::NameKind),
        Some(Entity::Function(_)) => Err(Rule::LeftOutForm),
        Some(Entity::Field(_, _)) => Err(Rule::LeftOutForm),
        Some(Entity::Enumerator(_, _)) => Err(Rule::LeftOutForm),
    }
}

/// What a name means, where it means a variable that has an integer type.
fn found<J: Judge>(
    elab: &Elab<J>,
    name: &FunctionName,
) -> Result<Result<NamedVariable, Rule>, Memory>
    ensures known { IfOk result (λ r. IfOk r (λ v. v.ty.0 < length (types_of elab.now).rows)) }
    ensures meant { IfOk result (λ r. named_shown (types_of elab.now) r ≡ forms.found (world_of elab.now) name.now) }
{
    if name.global || name.scopes.len() != 0 {
        return Ok(Err(Rule::LeftOutForm));
    }
    match &name.last {
        Last::Operator(_) => Ok(Err(Rule::LeftOutForm)),
        Last::Ident(ident) => match elab.look_up(&ident.text)? {
            Ok(found) => Ok(first_meant(elab, found.as_slice())),
            Err(rule) => Ok(Err(rule)),
        },
    }
}

/// A name ([expr.prim.id]).
#[tactic(auto, using(cx_typed::proofs::Views::within_variable, cx_typed::proofs::Views::shown_variable))]
pub(crate) fn named<J: Judge>(
    elab: &Elab<J>,
    name: &FunctionName,
    span: Span,
) -> Result<TExpr, ElabAnswer>
    ensures within { IfOk result (Within (types_of elab.now)) }
    ensures ok { IfOk result (λ e. forms.named name.now span (world_of elab.now) ≡ Good (shown (types_of elab.now) e) (world_of elab.now)) }
    ensures fault { IfErr result (λ a. IsFault a (forms.named name.now span (world_of elab.now))) }
{
    match found(elab, name) {
        Ok(Ok(named)) => Ok(TExpr {
            node: TNode::Variable(named.variable),
            ty: named.ty,
            lvalue: true,
            span,
        }),
        Ok(Err(rule)) => Err(elab.fault(rule, span)),
        Err(Memory) => Err(ElabAnswer::Memory),
    }
}
