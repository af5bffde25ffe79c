//! Laws of the definitions, for what stands above: each is a function whose contract it is.

ghost use Rattle.std.specs.Prelude.{◌≡◌, ◌≢◌, [], ◌∷◌, ◌++◌, List, Some};
ghost use Rattle.cx_base.specs.declared.limits.Limits.{Limits};
ghost use Rattle.cx_type_defs.specs.declared.ids.VarId.{VarId};
ghost use Rattle.cx_type_defs.specs.Tables.{changed_at};
ghost use Rattle.cx_type_defs.specs.Same.{Form};
ghost use Rattle.cx_state.specs.declared.root.JudgeMode.{JudgeMode};
ghost use Rattle.cx_state.specs.States.{Stuck};
ghost use Rattle.cx_typed.specs.Trees.{Tx, Var, FullTree};
ghost use Rattle.cx_typed.specs.Well.{AllFit, BodyFits, Grows, MayInitialize, WellTyped, types_of};
ghost use Rattle.cx_typed.specs.Judging.{Kept, KeptFit, evaluated, judged};

/// A program grows to itself, and on and on; its calls make it grow; and what fits it then still does.
pub fn programs_grow()
    ensures reflexive { (p : List Var) → Grows p p }
    ensures transitive { (p q r : List Var) → Grows p q → Grows q r → Grows p r }
    ensures declared { (p : List Var) (v : Var) → Grows p (p ++ v ∷ []) }
    ensures initialized { (p : List Var) (v : VarId) (x : Tx Form) → MayInitialize p v x → Grows p (changed_at (λ (w : Var). record w { init = Some x }) p v.0) }
    ensures well_typed { (p q : List Var) → Grows p q → (x : Tx Form) → WellTyped (types_of p) x → WellTyped (types_of q) x }
    ensures kept { (p q : List Var) → Grows p q → (ks : Kept) → KeptFit p ks → KeptFit q ks }
{}

/// A judgement of what is well typed never gets stuck, and what is kept stays of the program ([expr.const]).
pub fn judgements_end()
    ensures never_stuck { (vs : List Var) (l : Limits) (ks : Kept) (f : FullTree) (md : JudgeMode) → AllFit vs → KeptFit vs ks → BodyFits vs f.body → evaluated vs l ks f md ≢ Stuck }
    ensures kept { (vs : List Var) (l : Limits) (ks : Kept) (f : FullTree) (md : JudgeMode) → AllFit vs → KeptFit vs ks → BodyFits vs f.body → KeptFit vs (judged vs l ks f md).1 }
{}
