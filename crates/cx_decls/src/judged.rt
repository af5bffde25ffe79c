//! Variables from their initializers to their judgements ([dcl.init], [expr.const]).

ghost use Rattle.std.specs.Prelude.{◌≡◌, IfOk, IfErr};
ghost use Rattle.cx_typed.specs.Shown.{Within, shown, vars_shown};
ghost use Rattle.cx_typed.specs.Well.{MayInitialize};
ghost use Rattle.cx_exprs.specs.declared.answer.ElabAnswer.TheVariants as answer;
ghost use Rattle.cx_exprs.specs.Declaring.{initialized};
ghost use Rattle.cx_exprs.specs.Desks.{types_of, world_of};
ghost use Rattle.cx_exprs.specs.Typing.{Good};
ghost use Rattle.cx_decls.specs.Variables.{judged_init};

use cx_base::{IntType, Span};
use cx_exprs::{Elab, ElabAnswer};
use cx_typed::{Judge, Outcome, TExpr};
use cx_types::VarId;

/// Initializes a variable, and judges that.
#[tactic(auto, using(crate::proofs::Initialized::is_there))]
pub fn judge_init<J: Judge>(
    elab: &mut Elab<J>,
    variable: VarId,
    ty: IntType,
    init: TExpr,
    span: Span,
) -> Result<Outcome, ElabAnswer>
    requires within { Within (types_of elab.old) init }
    requires fresh { MayInitialize (vars_shown elab.old.program) variable (shown (types_of elab.old) init) }
    ensures types { types_of elab.new ≡ types_of elab.old }
    ensures ended { elab.new.ended ≡ elab.old.ended }
    ensures ok { IfOk result (λ o. judged_init variable span (initialized variable (shown (types_of elab.old) init) (world_of elab.old)) ≡ Good o (world_of elab.new)) }
    ensures memory { IfErr result (λ a. a ≡ answer.Memory) }
{
    elab.initialize(variable, init);
    elab.judge_variable(variable, ty, span)
}
