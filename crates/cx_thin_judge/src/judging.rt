//! The judge.

ghost use Rattle.std.specs.Prelude.{◌≡◌, ◌<◌, [], List, length, slice_get, OnOk, OnErr};
ghost use Rattle.cx_typed.specs.Bodies.{reads, read_of};
ghost use Rattle.cx_typed.specs.Judging.{kept_at};
ghost use Rattle.cx_state.specs.declared.root.JudgeMode.{JudgeMode};
ghost use Rattle.cx_typed.specs.declared.judge.Outcome.TheVariants as outcome;
ghost use Rattle.cx_typed.specs.Trees.{Var};
ghost use Rattle.cx_typed.specs.Shown.{var_shown, vars_shown, full_shown};
ghost use Rattle.cx_typed.specs.Fitting.{MayJudge};
ghost use Rattle.cx_typed.specs.Judging.{KeptFit, kept_after, keeping, keeping_as, birth_of};
ghost use Rattle.cx_typed.proofs.Keeping.{kept_grown};
ghost use Rattle.cx_thin_judge.specs.Evaluating.{MayEval, Begun, read_answer, passed, told, answered, of_var};

use crate::eval::eval;
use crate::steps::{Broken, number};
use cx_base::{Diag, Limits, List as Items, Memory, Rule, Span};
use cx_ints::Int;
use cx_state::{Birth, JudgeMode};
use cx_typed::{Full, FullBody, Judge, KeptValue, Outcome, Program, TExpr, TVariable, Value};
use cx_types::VarId;
use indexmap::IndexMap;
use std::alloc::Global;
use std::marker::Model;

/// A judge that evaluates by recursion, under limits.
#[derive(Drop)]
pub struct ThinJudge {
    alloc: Global,
    kept: IndexMap<VarId, KeptValue>,
    limits: Limits,
}

impl Model for ThinJudge {
    ghost use Rattle.cx_thin_judge.specs.Evaluating.{Holding};

    ghost Value = { Holding };

    ghost view = { λ j. record { kept = j.kept.entries; limits = j.limits } };
}

impl ThinJudge {
    /// One that keeps nothing, and so fits every program.
    pub fn new(alloc: Global, limits: Limits) -> ThinJudge
        ensures kept { ⟦<ThinJudge as Judge>⟧.kept result ≡ [] }
        ensures limits { ⟦<ThinJudge as Judge>⟧.limits result ≡ limits }
        ensures fits { (vs : List Var) → ⟦<ThinJudge as Judge>⟧.fits result vs }
    {
        ThinJudge {
            alloc,
            kept: IndexMap::new(alloc),
            limits,
        }
    }

    fn kept_value(&self, variable: VarId) -> Option<KeptValue>
        ensures { result ≡ kept_at self.now.kept variable }
    {
        self.kept.get(&variable).copied()
    }

    // The value of a variable, where it may be read.
    pub(crate) fn read(&self, judged: Option<VarId>, variable: VarId) -> Result<Int, Rule>
        ensures { read_answer result ≡ reads self.now.kept judged variable }
    {
        match judged {
            None => usable(self.kept_value(variable)),
            Some(judged) => {
                if judged.0 == variable.0 {
                    Err(Rule::Indeterminate)
                } else {
                    usable(self.kept_value(variable))
                }
            }
        }
    }
}

impl ThinJudge {
    // The limit that one object more would pass.
    fn passed(&self) -> Option<Rule>
        ensures { result ≡ passed self.now.limits (length self.now.kept) }
    {
        if self.limits.objects == 0 {
            return Some(Rule::LimitObjects);
        }
        if (self.limits.cells as usize) <= self.kept.len() {
            return Some(Rule::LimitCells);
        }
        None
    }

    // What a full-expression gives, behind its count.
    fn begun(
        &self,
        program: &Program,
        judged: Option<VarId>,
        expr: &TExpr,
        at: Span,
    ) -> Result<Int, Broken>
        requires { MayEval self.now program.now judged }
        ensures { Begun self.now program.now judged expr.now at result }
    {
        if self.limits.exprs == 0 {
            return Err(Broken {
                rule: Rule::LimitExprs,
                span: at,
            });
        }
        number(eval(self, program, judged, expr), at)
    }

    fn found_of_variable(&self, program: &Program, variable: VarId, at: Span) -> Result<Int, Broken>
        requires fits { KeptFit (vars_shown program.now) self.now.kept }
        requires there { variable.0 < length program.now.variables }
        ensures { (md : JudgeMode) → told self.now program.now md (of_var variable at) ≡ answered result }
    {
        program.fits();
        let row = &program.variables()[variable.0 as usize];
        if let Some(rule) = self.passed() {
            return Err(Broken { rule, span: row.at });
        }
        match &row.init {
            Some(init) => self.begun(program, Some(variable), init, at),
            None => Err(Broken {
                rule: Rule::ResultIndeterminate,
                span: at,
            }),
        }
    }

    // What a judgement finds.
    fn found(&self, program: &Program, full: &Full) -> Result<Int, Broken>
        requires full { MayJudge program.now full.now }
        requires fits { KeptFit (vars_shown program.now) self.now.kept }
        ensures { (md : JudgeMode) → told self.now program.now md (full_shown program.now full.now) ≡ answered result }
    {
        match &full.body {
            FullBody::Expr(expr) => self.begun(program, None, expr, full.span),
            FullBody::Variable(variable) => self.found_of_variable(program, *variable, full.span),
        }
    }
}

fn usable(kept: Option<KeptValue>) -> Result<Int, Rule>
    ensures { read_answer result ≡ read_of kept }
{
    match kept {
        None => Err(Rule::NotUsable),
        Some(kept) => {
            if matches!(kept.birth, Birth::Opaque) {
                return Err(Rule::NotUsable);
            }
            let Value::Int(value) = kept.value;
            Ok(value)
        }
    }
}

fn birth_of(program: &Program, variable: &TVariable) -> Birth
    requires { variable.now.ty.0 < length program.now.types.rows }
    ensures { result ≡ birth_of (var_shown program.now.types variable.now) }
{
    if variable.is_constexpr || program.is_const_int(variable.ty) {
        Birth::Usable
    } else {
        Birth::Opaque
    }
}

impl ThinJudge {
    // Keeps a variable with its value.
    fn keep_variable(
        &mut self,
        program: &Program,
        variable: VarId,
        value: Value,
    ) -> Result<(), Memory>
        requires { variable.0 < length program.now.variables }
        ensures ok { OnOk result (self.new.kept ≡ keeping_as self.old.kept variable (slice_get (vars_shown program.now) variable.0) value) }
        ensures err { OnErr result (self.new.kept ≡ self.old.kept) }
        ensures limits { self.new.limits ≡ self.old.limits }
    {
        program.fits();
        let row = &program.variables()[variable.0 as usize];
        let birth = birth_of(program, row);
        self.put(variable, KeptValue { value, birth })
    }

    fn put(&mut self, variable: VarId, kept: KeptValue) -> Result<(), Memory>
        ensures ok { OnOk result (self.new.kept ≡ keeping self.old.kept variable kept) }
        ensures err { OnErr result (self.new.kept ≡ self.old.kept) }
        ensures limits { self.new.limits ≡ self.old.limits }
    {
        match self.kept.insert(variable, kept) {
            Ok(_) => Ok(()),
            Err(_) => Err(Memory),
        }
    }

    // Keeps what is judged where the mode says so.
    fn keep(
        &mut self,
        program: &Program,
        full: &Full,
        mode: JudgeMode,
        value: Value,
    ) -> Result<(), Memory>
        requires { MayJudge program.now full.now }
        ensures ok { OnOk result (self.new.kept ≡ kept_after (vars_shown program.now) self.old.kept mode (full_shown program.now full.now).body (outcome.Value value)) }
        ensures err { OnErr result (self.new.kept ≡ self.old.kept) }
        ensures limits { self.new.limits ≡ self.old.limits }
    {
        match mode {
            JudgeMode::Keep => match &full.body {
                FullBody::Variable(variable) => self.keep_variable(program, *variable, value),
                FullBody::Expr(_) => Ok(()),
            },
            JudgeMode::Constant | JudgeMode::Narrow => Ok(()),
        }
    }
}

impl Judge for ThinJudge {
    ghost kept = { λ j. j.kept };

    ghost limits = { λ j. j.limits };

    ghost fits = { λ j vs. KeptFit vs j.kept };

    ghost fits_grown = { λ j p q g h. kept_grown p q g j.kept h };

    fn judge(
        &mut self,
        program: &Program,
        full: &Full,
        mode: JudgeMode,
    ) -> Result<Outcome, Memory> {
        program.fits();
        match self.found(program, full) {
            Ok(value) => {
                let value = Value::Int(value);
                match self.keep(program, full, mode, value) {
                    Ok(()) => Ok(Outcome::Value(value)),
                    Err(_) => Err(Memory),
                }
            }
            Err(broken) => Ok(Outcome::Violation(Diag {
                span: broken.span,
                rule: broken.rule,
                frames: Items::new(self.alloc),
            })),
        }
    }
}
