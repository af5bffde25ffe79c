//! What typing has at hand.

ghost use Rattle.std.specs.Prelude.{◌≡◌, ◌<◌, [], length, slice_get, Some, true, IfOk, IfErr};
ghost use Rattle.cx_type_defs.specs.Same.{form_of, Int};
ghost use Rattle.cx_type_defs.specs.Sound.{Sound};
ghost use Rattle.cx_typed.specs.Fitting.{MayJudge, IsKeepable};
ghost use Rattle.cx_typed.specs.Shown.{Within, full_shown, shown, vars_shown};
ghost use Rattle.cx_exprs.specs.declared.answer.ElabAnswer.TheVariants as answer;
ghost use Rattle.cx_scopes.specs.Lookup.{find_answer};
ghost use Rattle.cx_exprs.specs.Desks.{looked_up_in, named_shown, types_of, world_of};
ghost use Rattle.cx_exprs.specs.Forms as forms;
ghost use Rattle.cx_exprs.specs.Parts.{type_of};
ghost use Rattle.cx_exprs.specs.Typing.{Good, judging};

use crate::answer::ElabAnswer;
use crate::ints::{Ints, id_of};
use crate::names::NamedVariable;
use cx_base::{Diag, IntType, List, Memory, Rule, Span, Text};
use cx_scopes::{Found, LookAnswer, Scopes};
use cx_typed::{Full, Judge, JudgeMode, Line, Outcome, Program, TExpr};
use cx_types::{TypeId, TypeRow, VarId};
use std::alloc::Global;
use std::marker::Model;

/// A program, its scopes and its constants as far as they are typed, with the judge of its constants.
#[derive(Drop)]
pub struct Elab<J: Judge> {
    pub(crate) alloc: Global,
    pub(crate) program: Program,
    pub(crate) scopes: Scopes,
    pub(crate) judge: J,
    pub(crate) lines: List<Line>,
    pub(crate) ended: Option<ElabAnswer>,
    pub(crate) ints: Ints,
}

impl<J: Judge> Model for Elab<J> {
    ghost use Rattle.cx_exprs.specs.Desks.{Desk, HasInts};
    ghost use Rattle.cx_typed.specs.contracts.exprs.TNode as e;
    ghost use Rattle.std.specs.Coded.{codes};

    ghost Value = { Desk };

    ghost coded = { Prim.hlevel (codes, e.the_row.coded) };

    ghost use Rattle.cx_typed.specs.Shown.{vars_shown};

    ghost view = { λ e. record { program = e.program; names = e.scopes; kept = J.kept e.judge; limits = J.limits e.judge; lines = e.lines; ended = e.ended } };

    ghost invariant = { λ e. HasInts e.program.types e.ints × J.fits e.judge (vars_shown e.program) };
}

impl<J: Judge> Elab<J> {
    /// The number of an integer type.
    #[tactic(auto, using(crate::proofs::Ids::id_form, crate::proofs::Ids::id_known))]
    pub(crate) fn int_id(&self, ty: IntType) -> TypeId
        ensures known { result.0 < length (types_of self.now).rows }
        ensures form { form_of true (types_of self.now) result ≡ Int ty }
    {
        self.program.types().sound();
        id_of(&self.ints, ty)
    }

    /// The integer type of an expression.
    #[tactic(auto, using(crate::proofs::MadeNodes::type_is, cx_typed::proofs::Views::type_within))]
    pub(crate) fn int_type(&self, expr: &TExpr) -> IntType
        requires { Within (types_of self.now) expr.now }
        ensures { result ≡ type_of (shown (types_of self.now) expr.now) }
    {
        match self.program.int_type(expr.ty) {
            Some(ty) => ty,
            None => IntType::Int,
        }
    }

    /// A type of the program.
    pub(crate) fn row(&self, id: TypeId) -> TypeRow
        requires { id.0 < length (types_of self.now).rows }
        ensures stands { slice_get (types_of self.now).rows id.0 ≡ Some result }
        ensures sound { Sound (types_of self.now) }
    {
        self.program.types().sound();
        self.program.types().row(id)
    }

    /// The allocator.
    pub(crate) fn alloc(&self) -> Global {
        self.alloc
    }

    /// A rule that is broken.
    pub(crate) fn fault(&self, rule: Rule, span: Span) -> ElabAnswer
        ensures { result ≡ answer.Fault (record { span = span; rule = rule; frames = [] }) }
    {
        ElabAnswer::Fault(Diag {
            span,
            rule,
            frames: List::new(self.alloc),
        })
    }

    /// A variable, if it is there and has an integer type.
    #[tactic(auto, using(crate::proofs::Found::variable_there, crate::proofs::Found::variable_missing, crate::proofs::Found::variable_other, crate::proofs::Found::variable_known))]
    pub(crate) fn variable(&self, variable: VarId) -> Result<NamedVariable, Rule>
        ensures known { IfOk result (λ v. v.ty.0 < length (types_of self.now).rows) }
        ensures meant { named_shown (types_of self.now) result ≡ forms.variable_of variable (slice_get (vars_shown self.now.program) variable.0) }
    {
        self.program.fits();
        let Some(row) = self.program.variables().get(variable.0 as usize) else {
            return Err(Rule::LeftOutForm);
        };
        let ty = row.ty;
        match self.program.int_type(ty) {
            Some(_) => Ok(NamedVariable { variable, ty }),
            None => Err(Rule::LeftOutForm),
        }
    }

    /// What a name means, or the rule that is broken where it means nothing.
    pub(crate) fn look_up(&self, name: &Text) -> Result<Result<Found, Rule>, Memory>
        ensures { IfOk result (λ r. looked_up_in (vars_shown self.now.program) r ≡ forms.looked_up (vars_shown self.now.program) (find_answer self.now.names name.now)) }
    {
        match self.scopes.find(self.program.types(), name) {
            Ok(found) => Ok(Ok(found)),
            Err(LookAnswer::Ambiguous) => Ok(Err(Rule::Ambiguous)),
            Err(LookAnswer::Unknown) => Ok(Err(Rule::UnknownName)),
            Err(LookAnswer::Redeclared) => Ok(Err(Rule::UnknownName)),
            Err(LookAnswer::Memory) => Err(Memory),
        }
    }

    /// A judgement.
    pub(crate) fn judge(&mut self, full: &Full, mode: JudgeMode) -> Result<Outcome, ElabAnswer>
        requires full { MayJudge self.old.program full.now }
        requires keepable { IsKeepable mode full.now.body }
        ensures program { self.new.program ≡ self.old.program }
        ensures ended { self.new.ended ≡ self.old.ended }
        ensures ok { IfOk result (λ o. judging mode (full_shown self.old.program full.now) (world_of self.old) ≡ Good o (world_of self.new)) }
        ensures memory { IfErr result (λ a. a ≡ answer.Memory) }
    {
        match self.judge.judge(&self.program, full, mode) {
            Ok(outcome) => Ok(outcome),
            Err(_) => Err(ElabAnswer::Memory),
        }
    }
}
