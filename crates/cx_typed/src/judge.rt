//! Judgements of constants ([expr.const]).

ghost use Rattle.std.specs.Prelude.{◌≡◌, IfOk};
ghost use Rattle.cx_typed.specs.Shown.{vars_shown, full_shown};
ghost use Rattle.cx_typed.specs.Fitting.{MayJudge, IsKeepable};
ghost use Rattle.cx_typed.specs.Judging.{judged};

use crate::exprs::TExpr;
use crate::program::Program;
use cx_base::{Diag, List, Memory, Span};
use cx_ints::Int;
use cx_state::{Birth, JudgeMode, Root};
use cx_types::{Step, TypeId, VarId};

/// A value of a constant ([expr.const]).
#[derive(Clone, Copy, Debug, PartialEq, Eq)]
pub enum Value {
    Int(Int),
}

/// A place that lasts: the name of its object, the steps to it, and whether it is past an end ([basic.compound]).
#[derive(Debug, Drop)]
pub struct KeptPlace {
    pub root: Root,
    pub steps: List<Step>,
    pub past: bool,
}

/// What is kept of a variable: its value, and whether it is usable in constant expressions.
#[derive(Clone, Copy, Debug, PartialEq, Eq)]
pub struct KeptValue {
    pub value: Value,
    pub birth: Birth,
}

/// What a judgement gives.
#[derive(Debug, Drop)]
pub enum Outcome {
    Value(Value),
    Violation(Diag),
}

/// What is judged: an expression, or the initialization of a variable of the program.
#[derive(Drop)]
pub enum FullBody {
    Expr(TExpr),
    Variable(VarId),
}

/// A full-expression that is judged ([intro.execution]).
#[derive(Drop)]
pub struct Full {
    pub body: FullBody,
    pub ty: TypeId,
    pub span: Span,
}

/// One that judges constants.
pub trait Judge: Drop {
    ghost use Rattle.std.specs.Prelude.{List};
    ghost use Rattle.cx_base.specs.declared.limits.Limits.{Limits};
    ghost use Rattle.cx_typed.specs.Trees.{Var};
    ghost use Rattle.cx_typed.specs.Well.{Grows};
    ghost use Rattle.cx_typed.specs.Judging.{Kept};

    /// The variables that are kept, each with its value.
    ghost kept: { Self → Kept };

    /// How far each judgement may go.
    ghost limits: { Self → Limits };

    /// What is kept is of the program, and stays so where the program grows.
    ghost fits: { Self → List Var → Type 0 };

    ghost fits_grown: { (j : Self) (p q : List Var) → Grows p q → fits j p → fits j q };

    /// The value, or the first violation. In mode `Keep` a variable is kept from then on, where it has a value.
    fn judge(&mut self, program: &Program, full: &Full, mode: JudgeMode) -> Result<Outcome, Memory>
        requires full { MayJudge program.now full.now }
        requires keepable { IsKeepable mode full.now.body }
        requires fits { fits self.old (vars_shown program.now) }
        ensures judged { IfOk result (λ o. judged (vars_shown program.now) (limits self.old) (kept self.old) (full_shown program.now full.now) mode ≡ (o, kept self.new)) }
        ensures limits { limits self.new ≡ limits self.old }
        ensures fits { fits self.new (vars_shown program.now) };
}
