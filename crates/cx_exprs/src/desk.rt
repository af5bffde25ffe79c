//! What declarations do with what typing has at hand.

ghost use Rattle.std.specs.Prelude.{◌≡◌, ◌+◌, ◌<◌, ◌≤◌, ◌^◌, length, true, IfOk, IfErr};
ghost use Rattle.cx_type_defs.specs.Same.{form_of, Int, Const};
ghost use Rattle.cx_type_defs.specs.Tables.{Grows as TypesGrow};
ghost use Rattle.cx_typed.specs.Shown.{Within, shown, vars_shown};
ghost use Rattle.cx_typed.specs.Trees.{OfExpr, OfVariable};
ghost use Rattle.cx_typed.specs.Well.{BodyFits, MayInitialize};
ghost use Rattle.cx_state.specs.declared.root.JudgeMode.TheVariants as mode;
ghost use Rattle.cx_exprs.specs.declared.answer.ElabAnswer.TheVariants as answer;
ghost use Rattle.cx_exprs.specs.Declaring.{const_var, initialized, introduced, with_line};
ghost use Rattle.cx_exprs.specs.Desks.{IsFault, types_of, world_of};
ghost use Rattle.cx_exprs.specs.Parts.{as_value};
ghost use Rattle.cx_exprs.specs.Typing.{Good, judging};

use crate::answer::ElabAnswer;
use crate::elab::Elab;
use crate::nodes::as_value;
use cx_base::{IntType, Mark, Rule, Span, Text};
use cx_scopes::{Entity, LookAnswer};
use cx_tree::Ident;
use cx_typed::{
    Full, FullBody, Judge, JudgeMode, Line, LineKind, Outcome, TExpr, TVariable, Value, value_text,
};
use cx_types::{TypeId, TypeKind, TypeRow, VarId};

impl<J: Judge> Elab<J> {
    /// Adds a line.
    pub fn add_line(
        &mut self,
        start: Mark,
        kind: LineKind,
        name: Text,
        value: Value,
    ) -> Result<(), ElabAnswer>
        ensures program { self.new.program ≡ self.old.program }
        ensures ended { self.new.ended ≡ self.old.ended }
        ensures world { IfOk result (λ u. world_of self.new ≡ with_line kind start name value (world_of self.old)) }
        ensures memory { IfErr result (λ a. a ≡ answer.Memory) }
    {
        let Ok(text) = value_text(self.alloc, value) else {
            return Err(ElabAnswer::Memory);
        };
        let line = Line {
            start,
            kind,
            name,
            value,
            text,
        };
        match self.lines.push(line) {
            Ok(()) => Ok(()),
            Err(_) => Err(ElabAnswer::Memory),
        }
    }

    /// The number of a const integer type, which may be new.
    #[tactic(auto, using(crate::proofs::Desked::const_form, crate::proofs::Desked::const_known))]
    fn const_id(&mut self, ty: IntType) -> Result<TypeId, ElabAnswer>
        requires room { length (types_of self.old).rows + 1 < 2 ^ 32 }
        ensures types { TypesGrow (types_of self.old) (types_of self.new) }
        ensures one_more { length (types_of self.new).rows ≤ length (types_of self.old).rows + 1 }
        ensures variables { self.new.program.variables ≡ self.old.program.variables }
        ensures world { world_of self.new ≡ world_of self.old }
        ensures ended { self.new.ended ≡ self.old.ended }
        ensures known { IfOk result (λ id. id.0 < length (types_of self.new).rows) }
        ensures form { IfOk result (λ id. form_of true (types_of self.new) id ≡ Const (Int ty)) }
        ensures memory { IfErr result (λ a. a ≡ answer.Memory) }
    {
        let row = TypeRow {
            kind: TypeKind::Int(ty),
            konst: true,
        };
        let Ok(id) = self.program.intern(row) else {
            return Err(ElabAnswer::Memory);
        };
        self.program.types().sound();
        Ok(id)
    }

    /// A variable of a const integer type more, which its name means from here on and which isn't initialized yet. A name that has
    /// another meaning in the present scope breaks a rule ([basic.scope.scope]).
    #[tactic(auto, using(crate::proofs::Desked::const_integer))]
    pub fn declare_const(
        &mut self,
        name: &Ident,
        ty: IntType,
        is_constexpr: bool,
    ) -> Result<VarId, ElabAnswer>
        requires few { length self.old.program.variables + 1 < 2 ^ 23 }
        requires room { length (types_of self.old).rows + 1 < 2 ^ 32 }
        ensures types { TypesGrow (types_of self.old) (types_of self.new) }
        ensures one_more { length (types_of self.new).rows ≤ length (types_of self.old).rows + 1 }
        ensures ended { self.new.ended ≡ self.old.ended }
        ensures ok { IfOk result (λ v. introduced (const_var ty is_constexpr name.now.text name.now.span) (world_of self.old) ≡ Good v (world_of self.new)) }
        ensures fault { IfErr result (λ a. IsFault a (introduced (const_var ty is_constexpr name.now.text name.now.span) (world_of self.old))) }
    {
        let id = self.const_id(ty)?;
        let Ok(text) = name.text.copy() else {
            return Err(ElabAnswer::Memory);
        };
        self.program.fits();
        let next = VarId(self.program.variables().len() as u32);
        match self.scopes.declare(&name.text, Entity::Variable(next)) {
            Ok(()) => {}
            Err(LookAnswer::Memory) => return Err(ElabAnswer::Memory),
            Err(_) => return Err(self.fault(Rule::Redeclared, name.span)),
        }
        let variable = TVariable {
            name: text,
            ty: id,
            at: name.span,
            is_constexpr,
            init: None,
        };
        let Ok(number) = self.program.declare(variable) else {
            return Err(ElabAnswer::Memory);
        };
        Ok(number)
    }

    /// Initializes a variable that isn't initialized yet.
    pub fn initialize(&mut self, variable: VarId, init: TExpr)
        requires within { Within (types_of self.old) init }
        requires fresh { MayInitialize (vars_shown self.old.program) variable (shown (types_of self.old) init) }
        ensures types { types_of self.new ≡ types_of self.old }
        ensures ended { self.new.ended ≡ self.old.ended }
        ensures world { world_of self.new ≡ initialized variable (shown (types_of self.old) init) (world_of self.old) }
    {
        self.program.initialize(variable, init);
    }

    /// Judges the initialization of a variable, which is kept where it has a value.
    pub fn judge_variable(
        &mut self,
        variable: VarId,
        ty: IntType,
        span: Span,
    ) -> Result<Outcome, ElabAnswer>
        requires there { variable.0 < length (vars_shown self.old.program) }
        ensures program { self.new.program ≡ self.old.program }
        ensures ended { self.new.ended ≡ self.old.ended }
        ensures ok { IfOk result (λ o. judging mode.Keep (record { body = OfVariable variable; span = span }) (world_of self.old) ≡ Good o (world_of self.new)) }
        ensures memory { IfErr result (λ a. a ≡ answer.Memory) }
    {
        let full = Full {
            body: FullBody::Variable(variable),
            ty: self.int_id(ty),
            span,
        };
        self.judge(&full, JudgeMode::Keep)
    }

    /// Judges a number.
    pub fn judge_number(&mut self, number: TExpr, span: Span) -> Result<Outcome, ElabAnswer>
        requires within { Within (types_of self.old) number }
        requires fits { BodyFits (vars_shown self.old.program) (OfExpr (shown (types_of self.old) number)) }
        ensures program { self.new.program ≡ self.old.program }
        ensures ended { self.new.ended ≡ self.old.ended }
        ensures ok { IfOk result (λ o. judging mode.Constant (record { body = OfExpr (shown (types_of self.old) number); span = span }) (world_of self.old) ≡ Good o (world_of self.new)) }
        ensures memory { IfErr result (λ a. a ≡ answer.Memory) }
    {
        let ty = number.ty;
        let full = Full {
            body: FullBody::Expr(number),
            ty,
            span,
        };
        self.judge(&full, JudgeMode::Constant)
    }

    /// A number as one of this type, and an object's value as one ([conv]).
    pub fn value_as(&self, ty: IntType, expr: TExpr) -> Result<TExpr, ElabAnswer>
        requires within { Within (types_of self.now) expr }
        ensures within { IfOk result (Within (types_of self.now)) }
        ensures form { IfOk result (λ e. shown (types_of self.now) e ≡ as_value ty (shown (types_of self.now) expr)) }
        ensures memory { IfErr result (λ a. a ≡ answer.Memory) }
    {
        as_value(self, ty, expr)
    }
}
