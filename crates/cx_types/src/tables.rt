ghost use Rattle.std.specs.Prelude.{◌≡◌, ◌==◌, ℕ, ◌+◌, ◌-◌, ◌^◌, ◌<◌, ◌≤◌, ◌↔◌, [], ◌∷◌, ◌++◌, length, slice_get, Option, Some, None, is_some, option_map, IsSome, IfSome, IsTrue, IfOk, OnOk, OnErr};
ghost use Rattle.cx_type_defs.specs.Tables.{Tables, no_types, with_class, with_enum, with_end, with_body, body_at, base_of, field_of, overrider, under_at, declared_pure};
ghost use Rattle.cx_type_defs.specs.Enums.{MayEnd, IsFixedIfScoped, values_at};
ghost use Rattle.cx_type_defs.specs.Sound.{Sound};
ghost use Rattle.cx_types.specs.Kept.{KeptClass};

use crate::facts::{Measure, RowFacts};
use crate::func_set::FuncSet;
use crate::row_set::RowSet;
use crate::vectors::{end_at, push};
use cx_base::{IntType, Memory, Span, Text};
use cx_type_defs::{
    ClassBody, ClassDecl, ClassFlags, ClassId, ClassKey, EnumDecl, EnumEnd, EnumId, Field, FuncId,
    TypeId, TypeRow, enum_values,
};
use std::alloc::Global;
use std::marker::Model;

mod asks;
mod close;
mod intern;
mod known;
mod slots;

/// A program's types, classes and enumerations, that contracts see as lists in order of declaration.
#[derive(Debug, Drop)]
pub struct Types {
    alloc: Global,
    rows: RowSet,
    facts: Vec<RowFacts>,
    classes: Vec<ClassDecl>,
    measures: Vec<Option<Measure>>,
    pures: FuncSet,
    enums: Vec<EnumDecl>,
}

impl Model for Types {
    ghost use Rattle.cx_type_defs.specs.Tables.{Tables};

    ghost Value = { Tables };

    ghost use Rattle.cx_types.specs.Kept.{AllKept};

    ghost view = { λ s. record { rows = s.rows; classes = s.classes.items; enums = s.enums.items } };

    ghost invariant = { λ s. AllKept (record { rows = s.rows; classes = s.classes.items; enums = s.enums.items }) s.facts.items s.measures.items s.pures };
}

impl Types {
    /// No types yet.
    pub fn new(alloc: Global) -> Result<Types, Memory>
        ensures { IfOk result (λ t. t ≡ no_types) }
    {
        Ok(Types {
            alloc,
            rows: RowSet::new(alloc),
            facts: Vec::new(alloc),
            classes: Vec::new(alloc),
            measures: Vec::new(alloc),
            pures: FuncSet::new(alloc),
            enums: Vec::new(alloc),
        })
    }

    /// What holds of the tables whatever was put into them.
    pub fn sound(&self)
        ensures { Sound self.now }
    {
        let _ = self.rows.len();
    }

    /// The type with this number.
    pub fn row(&self, id: TypeId) -> TypeRow
        requires { id.0 < length self.now.rows }
        ensures { slice_get self.now.rows id.0 ≡ Some result }
    {
        self.rows.at(id.0 as usize)
    }

    fn class(&self, class: ClassId) -> &ClassDecl
        requires { class.0 < length self.now.classes }
        ensures { slice_get self.now.classes class.0 ≡ Some result.now }
    {
        &self.classes[class.0 as usize]
    }

    fn enumeration(&self, id: EnumId) -> &EnumDecl
        requires { id.0 < length self.now.enums }
        ensures { slice_get self.now.enums id.0 ≡ Some result.now }
    {
        &self.enums[id.0 as usize]
    }

    /// The word that the class is declared with.
    pub fn key(&self, class: ClassId) -> ClassKey
        requires { class.0 < length self.now.classes }
        ensures { option_map (λ d. d.key) (slice_get self.now.classes class.0) ≡ Some result }
    {
        self.class(class).key
    }

    /// Whether the class is complete ([class.mem]).
    pub fn complete(&self, class: ClassId) -> bool
        requires { class.0 < length self.now.classes }
        ensures { result ≡ is_some (body_at self.now class) }
    {
        self.class(class).body.is_some()
    }

    /// The class's name, as it was handed in.
    pub fn class_name(&self, class: ClassId) -> &Text
        requires { class.0 < length self.now.classes }
        ensures { option_map (λ d. d.name) (slice_get self.now.classes class.0) ≡ Some result.now }
    {
        &self.class(class).name
    }

    /// Whether the enumeration is scoped ([dcl.enum]).
    pub fn scoped(&self, id: EnumId) -> bool
        requires { id.0 < length self.now.enums }
        ensures { option_map (λ d. d.scoped) (slice_get self.now.enums id.0) ≡ Some result }
    {
        self.enumeration(id).scoped
    }

    /// The enumeration's name, as it was handed in.
    pub fn enum_name(&self, id: EnumId) -> &Text
        requires { id.0 < length self.now.enums }
        ensures { option_map (λ d. d.name) (slice_get self.now.enums id.0) ≡ Some result.now }
    {
        &self.enumeration(id).name
    }

    /// The enumeration's underlying type; it has none until its list ends, where its declaration fixes none.
    pub fn under(&self, id: EnumId) -> Option<IntType>
        requires { id.0 < length self.now.enums }
        ensures { result ≡ under_at self.now id }
    {
        let decl = self.enumeration(id);
        match decl.fixed {
            Some(fixed) => Some(fixed),
            None => decl.end.map(|end| end.under),
        }
    }

    /// The least and the greatest of the enumeration's values ([dcl.enum]): those of its fixed type, or else of the
    /// smallest bit-field of at least one bit that holds all its enumerators. It asks that `under` isn't None,
    /// and tries 64 widths at most.
    pub fn enum_range(&self, id: EnumId) -> (i128, i128)
        requires { IsSome (under_at self.now id) }
        ensures { values_at self.now id ≡ Some result }
    {
        let decl = self.enumeration(id);
        enum_values(decl.fixed, decl.end)
    }

    fn body(&self, class: ClassId) -> &ClassBody
        requires { IsSome (body_at self.now class) }
        ensures { body_at self.now class ≡ Some result.now }
    {
        self.class(class).body.as_ref().unwrap()
    }

    fn field(&self, class: ClassId, i: u32) -> &Field
        requires { IsSome (field_of self.now class i) }
        ensures { field_of self.now class i ≡ Some result.now }
    {
        self.body(class).fields.at(i as usize)
    }

    /// The flags of a complete class.
    pub fn flags(&self, class: ClassId) -> ClassFlags
        requires { IsSome (body_at self.now class) }
        ensures { option_map (λ b. b.flags) (body_at self.now class) ≡ Some result }
    {
        self.body(class).flags
    }

    fn measure_of(&self, class: ClassId) -> Option<Measure>
        requires { class.0 < length self.now.classes }
        ensures { KeptClass self.now class (body_at self.now class) result }
    {
        self.measures[class.0 as usize]
    }

    /// How many direct bases a complete class has ([class.derived]).
    pub fn bases(&self, class: ClassId) -> u32
        requires { IsSome (body_at self.now class) }
        ensures { option_map (λ b. length b.bases) (body_at self.now class) ≡ Some result }
    {
        self.measure_of(class);
        self.body(class).bases.len() as u32
    }

    /// A complete class's direct base, counted from 0.
    pub fn base_at(&self, class: ClassId, i: u32) -> ClassId
        requires { IsSome (base_of self.now class i) }
        ensures { base_of self.now class i ≡ Some result }
    {
        *self.body(class).bases.at(i as usize)
    }

    /// How many data members a complete class has ([class.mem]).
    pub fn fields(&self, class: ClassId) -> u32
        requires { IsSome (body_at self.now class) }
        ensures { option_map (λ b. length b.fields) (body_at self.now class) ≡ Some result }
    {
        self.measure_of(class);
        self.body(class).fields.len() as u32
    }

    /// The type of a complete class's member, counted from 0.
    pub fn field_at(&self, class: ClassId, i: u32) -> TypeId
        requires { IsSome (field_of self.now class i) }
        ensures { option_map (λ f. f.ty) (field_of self.now class i) ≡ Some result }
    {
        self.field(class, i).ty
    }

    /// The member's name, as it was handed in.
    pub fn field_name(&self, class: ClassId, i: u32) -> &Text
        requires { IsSome (field_of self.now class i) }
        ensures { option_map (λ f. f.name) (field_of self.now class i) ≡ Some result.now }
    {
        &self.field(class, i).name
    }

    /// Where the member is declared, as it was handed in.
    pub fn field_span(&self, class: ClassId, i: u32) -> Span
        requires { IsSome (field_of self.now class i) }
        ensures { option_map (λ f. f.at) (field_of self.now class i) ≡ Some result }
    {
        self.field(class, i).at
    }

    /// The member's default member initializer, where it has one.
    pub fn field_init(&self, class: ClassId, i: u32) -> Option<FuncId>
        requires { IsSome (field_of self.now class i) }
        ensures { option_map (λ f. f.init) (field_of self.now class i) ≡ Some result }
    {
        self.field(class, i).init
    }

    /// What the class's slot holds ([class.virtual]); None exactly where it has no such slot, as an incomplete class.
    pub fn final_overrider(&self, class: ClassId, slot: u32) -> Option<FuncId>
        requires { class.0 < length self.now.classes }
        ensures { result ≡ overrider self.now class slot }
    {
        let body = self.class(class).body.as_ref()?;
        body.slots.as_slice().get(slot as usize).copied()
    }

    /// A new class, incomplete; fewer than 2^32 - 1 were begun before.
    pub fn class_begin(&mut self, name: Text, key: ClassKey) -> Result<ClassId, Memory>
        requires { length self.old.classes < 2 ^ 32 - 1 }
        ensures id { IfOk result (λ id. id.0 ≡ length self.old.classes) }
        ensures begun { OnOk result (self.new ≡ with_class self.old (record { name = name; key = key; body = None })) }
        ensures err { OnErr result (self.new ≡ self.old) }
    {
        let id = ClassId(self.classes.len() as u32);
        self.measures.reserve(1).map_err(|_| Memory)?;
        let decl = ClassDecl {
            name,
            key,
            body: None,
        };
        push(&mut self.classes, decl)?;
        self.measures.push(None).unwrap();
        Ok(id)
    }

    /// A new enumeration, whose list hasn't ended; fewer than 2^32 - 1 were added before. A scoped one has a fixed type:
    /// where its declaration names none, that is int ([dcl.enum]).
    pub fn enum_add(
        &mut self,
        name: Text,
        scoped: bool,
        under: Option<IntType>,
    ) -> Result<EnumId, Memory>
        requires room { length self.old.enums < 2 ^ 32 - 1 }
        requires scoped { IsFixedIfScoped scoped under }
        ensures id { IfOk result (λ id. id.0 ≡ length self.old.enums) }
        ensures added { OnOk result (self.new ≡ with_enum self.old (record { name = name; scoped = scoped; fixed = under; end = None })) }
        ensures err { OnErr result (self.new ≡ self.old) }
    {
        let id = EnumId(self.enums.len() as u32);
        let decl = EnumDecl {
            name,
            scoped,
            fixed: under,
            end: None,
        };
        push(&mut self.enums, decl)?;
        Ok(id)
    }

    /// The enumeration's list ends: its underlying type, and its least and greatest enumerator, both 0 without one. The
    /// type is the one that the declaration fixes, or else the one that `underlying_of` gives.
    pub fn enum_end(&mut self, id: EnumId, under: IntType, low: i128, high: i128)
        requires { MayEnd (slice_get self.old.enums id.0) under low high }
        ensures { self.new ≡ with_end self.old id (record { under = under; low = low; high = high }) }
    {
        end_at(&mut self.enums, id.0 as usize, EnumEnd { under, low, high });
    }

    /// Whether a complete class declares the function pure ([class.abstract]): one look-up by hash.
    pub fn is_pure(&self, func: FuncId) -> bool
        ensures { result ≡ declared_pure self.now func }
    {
        self.pures.has(func)
    }
}
