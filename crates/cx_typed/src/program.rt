//! Programs.

ghost use Rattle.std.specs.Prelude.{◌≡◌, ◌+◌, ◌<◌, ◌≤◌, ◌^◌, [], ◌∷◌, ◌++◌, length, None, Some, slice_get, IfOk, IfErr, OnOk, OnErr, IfSome, true, map};
ghost use Rattle.cx_type_defs.specs.Tables.{Grows as TypesGrow, IsKnown, no_types, changed_at};
ghost use Rattle.cx_type_defs.specs.Same.{form_of, is_normal};
ghost use Rattle.cx_type_defs.specs.Refusals.{kind_refusal, Refuses};
ghost use Rattle.cx_typed.specs.Shown.{Within, shown, var_shown, vars_shown};
ghost use Rattle.cx_typed.specs.Well.{IsInteger, MayInitialize, int_of};
ghost use Rattle.cx_typed.specs.Fitting.{IsProgram};
ghost use Rattle.cx_typed.specs.Judging.{is_const_int};

use crate::exprs::TExpr;
use cx_base::{IntType, Memory, Span, Text};
use cx_types::{TypeAnswer, TypeId, TypeKind, TypeRow, Types, VarId};
use std::alloc::Global;
use std::marker::Model;

/// A variable ([basic.def]).
#[derive(Drop)]
pub struct TVariable {
    /// The qualified name.
    pub name: Text,
    pub ty: TypeId,
    /// Where the name is declared.
    pub at: Span,
    pub is_constexpr: bool,
    /// What it is initialized from, once that is known.
    pub init: Option<TExpr>,
}

fn push(variables: &mut Vec<TVariable>, variable: TVariable) -> Result<(), Memory>
    ensures ok { OnOk result (variables.new.items ≡ variables.old.items ++ variable ∷ []) }
    ensures err { OnErr result (variables.new.items ≡ variables.old.items) }
{
    match variables.push(variable) {
        Ok(()) => Ok(()),
        Err(_) => Err(Memory),
    }
}

fn set_init(variables: &mut Vec<TVariable>, i: usize, init: TExpr)
    requires { i < length variables.old.items }
    ensures { variables.new.items ≡ changed_at (λ v. record v { init = Some init }) variables.old.items i }
{
    let variable = &mut variables[i];
    variable.init = Some(init);
}

/// What was declared so far: types, and variables in order.
#[derive(Drop)]
pub struct Program {
    types: Types,
    variables: Vec<TVariable>,
}

impl Model for Program {
    ghost use Rattle.cx_typed.specs.Programs.{Rows};
    ghost use Rattle.cx_typed.specs.contracts.exprs.TNode as e;
    ghost use Rattle.std.specs.Coded.{codes};

    ghost Value = { Rows };

    ghost coded = { Prim.hlevel (codes, e.the_row.coded) };

    ghost use Rattle.cx_typed.specs.Fitting.{IsProgram};

    ghost view = { λ p. record { types = p.types; variables = p.variables.items } };

    ghost invariant = { λ p. IsProgram (record { types = p.types; variables = p.variables.items }) };
}

impl Program {
    /// No types and no variables.
    pub fn new(alloc: Global) -> Result<Program, Memory>
        ensures types { IfOk result (λ p. p.types ≡ no_types) }
        ensures variables { IfOk result (λ p. p.variables ≡ []) }
    {
        Ok(Program {
            types: Types::new(alloc)?,
            variables: Vec::new(alloc),
        })
    }

    /// What holds of every program.
    pub fn fits(&self)
        ensures { IsProgram self.now }
    {
        let _ = self.variables.len();
    }

    /// The types.
    pub fn types(&self) -> &Types
        ensures { result.now ≡ self.now.types }
    {
        &self.types
    }

    /// The variables.
    pub fn variables(&self) -> &[TVariable]
        ensures { result.now ≡ self.now.variables }
    {
        self.variables.as_slice()
    }

    /// The number of a type, which may be new. What is said of the variables stays.
    pub fn intern(&mut self, row: TypeRow) -> Result<TypeId, TypeAnswer>
        requires known { IsKnown self.old.types row.kind }
        requires normal { is_normal self.old.types row ≡ true }
        requires room { length self.old.types.rows + 1 < 2 ^ 32 }
        ensures grows { TypesGrow self.old.types self.new.types }
        ensures one_more { length self.new.types.rows ≤ length self.old.types.rows + 1 }
        ensures variables { self.new.variables ≡ self.old.variables }
        ensures same { vars_shown self.new ≡ vars_shown self.old }
        ensures stands { IfOk result (λ id. slice_get self.new.types.rows id.0 ≡ Some row) }
        ensures refused { IfErr result (λ e. Refuses (kind_refusal self.old.types row.kind) e) }
    {
        self.types.sound();
        self.types.intern(row)
    }

    /// The integer type that a type is, const aside.
    pub fn int_type(&self, id: TypeId) -> Option<IntType>
        requires { id.0 < length self.now.types.rows }
        ensures { result ≡ int_of (form_of true self.now.types id) }
    {
        self.types.sound();
        match self.types.row(id).kind {
            TypeKind::Int(ty) => Some(ty),
            _ => None,
        }
    }

    /// Whether a type is a const integer type.
    pub fn is_const_int(&self, id: TypeId) -> bool
        requires { id.0 < length self.now.types.rows }
        ensures { result ≡ is_const_int (form_of true self.now.types id) }
    {
        self.types.sound();
        let row = self.types.row(id);
        row.konst && matches!(row.kind, TypeKind::Int(_))
    }

    /// A variable more, which isn't initialized yet, with its number.
    pub fn declare(&mut self, variable: TVariable) -> Result<VarId, Memory>
        requires known { variable.ty.0 < length self.old.types.rows }
        requires integer { IsInteger (form_of true self.old.types variable.ty) }
        requires fresh { variable.init ≡ None }
        requires few { length self.old.variables + 1 < 2 ^ 23 }
        ensures types { self.new.types ≡ self.old.types }
        ensures number { IfOk result (λ v. v.0 ≡ length (vars_shown self.old)) }
        ensures declared { IfOk result (λ v. vars_shown self.new ≡ vars_shown self.old ++ var_shown self.old.types variable ∷ []) }
        ensures err { OnErr result (self.new.variables ≡ self.old.variables) }
    {
        let number = VarId(self.variables.len() as u32);
        push(&mut self.variables, variable)?;
        Ok(number)
    }

    /// What a variable is initialized from, which was not known before.
    pub fn initialize(&mut self, variable: VarId, init: TExpr)
        requires within { Within self.old.types init }
        requires fresh { MayInitialize (vars_shown self.old) variable (shown self.old.types init) }
        ensures types { self.new.types ≡ self.old.types }
        ensures initialized { vars_shown self.new ≡ changed_at (λ v. record v { init = Some (shown self.old.types init) }) (vars_shown self.old) variable.0 }
    {
        set_init(&mut self.variables, variable.0 as usize, init);
    }
}
