//! Entering scopes and declaring names.
ghost use Rattle.std.specs.Prelude.{◌≡◌, ◌-◌, ◌^◌, ◌<◌, [], Some, None, Ok, Err, OnOk, OnErr, IfErr};
ghost use Rattle.cx_scopes.specs.Names.{same_entity, stand_together, is_function, may_join, is_among};
ghost use Rattle.cx_scopes.specs.Scopes.{place_of, space_around};
ghost use Rattle.cx_scopes.specs.Steps.{present_meanings, own_meanings, declared, declared_at, declared_in_space, with_declaration, with_entered, entered_with, space_entered, space_entered_by, HasRoom, StandsInSpace};
ghost use Rattle.cx_scopes.specs.Lookup.{Refuses};

use crate::entered::{add_own, new_scope};
use crate::kept::{keep_class, keep_enum, keep_type};
use crate::kinds::{Entity, LookAnswer, ScopeId, ScopeKind};
use crate::scopes::Scopes;
use cx_base::{List, Text};
use cx_type_defs::{ClassId, EnumId};

/// Whether it is a function.
pub fn is_overload(entity: Entity) -> bool
    ensures { result ≡ is_function entity }
{
    match entity {
        Entity::Function(_) => true,
        _ => false,
    }
}

/// Whether both may be meanings of one name in one scope: functions, or the same entity.
fn stands_beside(entity: Entity, other: Entity) -> bool
    ensures { result ≡ stand_together entity other }
{
    if is_overload(entity) && is_overload(other) {
        return true;
    }
    entity == other
}

fn joins(entity: Entity, meanings: &[Entity]) -> bool
    ensures { result ≡ may_join entity meanings.now }
{
    meanings.iter().all(|other| stands_beside(entity, *other))
}

/// Whether it is one of them.
pub fn is_one_of(entity: Entity, meanings: &[Entity]) -> bool
    ensures { result ≡ is_among entity meanings.now }
{
    meanings.iter().any(|other| entity == *other)
}

impl Scopes {
    /// What the name means in a place, or among the innermost scope's own names, bases aside.
    fn own_meanings(&self, place: Option<ScopeId>, name: &[u8]) -> &[Entity]
        ensures { result.now ≡ own_meanings place self.now.entered self.now name.now }
    {
        if let Some(place) = place {
            return self.meanings_at(place, name);
        }
        match self.entered.last() {
            Some(last) => last.own.meanings(name),
            None => &[],
        }
    }

    /// What the name means in the present scope alone, in order of declaration: neither the scopes around it nor the
    /// bases of a class are looked into ([basic.scope.scope]).
    pub fn present_meanings(&self, name: &Text) -> &[Entity]
        ensures { result.now ≡ present_meanings self.now name.now }
    {
        self.own_meanings(self.place(), name.as_slice())
    }

    /// Declares a name in the present scope ([basic.scope.scope]). It answers `Redeclared` exactly where the scope has
    /// the name with a meaning that can't stand beside this one: two meanings stand beside each other where both are
    /// functions or they are the same entity, which is added once. A refusal changes nothing.
    pub fn declare(&mut self, name: &Text, entity: Entity) -> Result<(), LookAnswer>
        ensures ok { OnOk result (declared self.old name.now entity ≡ Ok self.new) }
        ensures refused { IfErr result (Refuses (declared self.old name.now entity)) }
        ensures err { OnErr result (self.new ≡ self.old) }
    {
        self.declare_at(self.place(), name, entity)
    }

    /// Declares a name in the innermost namespace, also from inside a class, function or block, as `struct S* p;` does
    /// for an `S` that isn't declared ([basic.scope.pdecl]). The answers are those of `declare`.
    pub fn declare_in_space(&mut self, name: &Text, entity: Entity) -> Result<(), LookAnswer>
        ensures ok { OnOk result (declared_in_space self.old name.now entity ≡ Ok self.new) }
        ensures refused { IfErr result (Refuses (declared_in_space self.old name.now entity)) }
        ensures err { OnErr result (self.new ≡ self.old) }
    {
        self.declare_at(Some(self.innermost_space()), name, entity)
    }

    fn declare_at(
        &mut self,
        place: Option<ScopeId>,
        name: &Text,
        entity: Entity,
    ) -> Result<(), LookAnswer>
        requires { place ≡ None → place_of self.old.entered ≡ None }
        ensures ok { OnOk result (declared_at place self.old name.now entity ≡ Ok self.new) }
        ensures refused { IfErr result (Refuses (declared_at place self.old name.now entity)) }
        ensures err { OnErr result (self.new ≡ self.old) }
    {
        let meanings = self.own_meanings(place, name.as_slice());
        if !joins(entity, meanings) {
            return Err(LookAnswer::Redeclared);
        }
        if is_one_of(entity, meanings) {
            return Ok(());
        }
        self.add(place, name.as_slice(), entity)
    }

    fn add(&mut self, place: Option<ScopeId>, name: &[u8], entity: Entity) -> Result<(), LookAnswer>
        requires { place ≡ None → place_of self.old.entered ≡ None }
        ensures ok { OnOk result (self.new ≡ with_declaration place self.old name.now entity) }
        ensures memory { IfErr result (λ e. e ≡ LookAnswer.Memory) }
        ensures err { OnErr result (self.new ≡ self.old) }
    {
        match place {
            Some(place) => self.add_at(place, name, entity),
            None => self.add_within(name, entity),
        }
    }

    fn add_at(&mut self, place: ScopeId, name: &[u8], entity: Entity) -> Result<(), LookAnswer>
        ensures ok { OnOk result (self.new ≡ with_declaration (Some place) self.old name.now entity) }
        ensures memory { IfErr result (λ e. e ≡ LookAnswer.Memory) }
        ensures err { OnErr result (self.new ≡ self.old) }
    {
        let space = self.space_around();
        self.types.reserve(1).map_err(|_| LookAnswer::Memory)?;
        self.tables
            .add(self.alloc, place, name, entity)
            .map_err(|_| LookAnswer::Memory)?;
        keep_type(&mut self.types, place, entity, space);
        Ok(())
    }

    fn add_within(&mut self, name: &[u8], entity: Entity) -> Result<(), LookAnswer>
        requires { place_of self.old.entered ≡ None }
        ensures ok { OnOk result (self.new ≡ with_declaration None self.old name.now entity) }
        ensures memory { IfErr result (λ e. e ≡ LookAnswer.Memory) }
        ensures err { OnErr result (self.new ≡ self.old) }
    {
        match add_own(self.alloc, &mut self.entered, name, entity) {
            Ok(()) => Ok(()),
            Err(_) => Err(LookAnswer::Memory),
        }
    }

    /// Enters a scope. A namespace is entered from a namespace, in which it is sought by its name: where the name has
    /// no meaning there, the next number is drawn and the name is declared as that namespace; where it means a
    /// namespace, that one is gone on with; else the answer is `Redeclared` ([basic.scope.namespace],
    /// [namespace.def]). A class or enumeration that was entered before is gone on with, and a class keeps the bases
    /// with which it was entered first ([basic.scope.class], [basic.scope.enum]). A function's or block's scope is new
    /// each time ([basic.scope.param], [basic.scope.block]). A refusal changes nothing.
    pub fn enter(&mut self, kind: ScopeKind) -> Result<(), LookAnswer>
        requires room { HasRoom self.old kind }
        requires stands { StandsInSpace self.old kind }
        ensures ok { OnOk result (entered_with self.old kind ≡ Ok self.new) }
        ensures refused { IfErr result (Refuses (entered_with self.old kind)) }
        ensures err { OnErr result (self.new ≡ self.old) }
    {
        match kind {
            ScopeKind::Namespace(name) => self.enter_space(name),
            ScopeKind::Class(class, bases) => self.enter_class(class, bases),
            ScopeKind::Enum(id) => self.enter_enum(id),
            ScopeKind::Function(func) => self.push(
                ScopeKind::Function(func),
                None,
                self.space_around(),
            ),
            ScopeKind::Block => self.push(ScopeKind::Block, None, self.space_around()),
        }
    }

    /// Enters a namespace by its number, from wherever one stands, as a definition of one of its functions does
    /// ([namespace.memdef]). A refusal changes nothing.
    pub fn enter_known_space(&mut self, name: Text, space: u32) -> Result<(), LookAnswer>
        requires { space < self.old.spaces }
        ensures ok { OnOk result (self.new ≡ space_entered_by self.old name space) }
        ensures memory { IfErr result (λ e. e ≡ LookAnswer.Memory) }
        ensures err { OnErr result (self.new ≡ self.old) }
    {
        let scope = Some(ScopeId::Space(space));
        self.push(ScopeKind::Namespace(name), scope, space)
    }

    fn enter_space(&mut self, name: Text) -> Result<(), LookAnswer>
        requires { self.old.spaces < 2 ^ 32 - 1 }
        ensures ok { OnOk result (entered_with self.old (ScopeKind.Namespace name) ≡ Ok self.new) }
        ensures refused { IfErr result (Refuses (entered_with self.old (ScopeKind.Namespace name))) }
        ensures err { OnErr result (self.new ≡ self.old) }
    {
        let home = ScopeId::Space(self.space_around());
        match self.meanings_at(home, name.as_slice()).first().copied() {
            None => self.enter_new_space(home, name),
            Some(Entity::Space(ScopeId::Space(n))) => {
                let scope = Some(ScopeId::Space(n));
                self.push(ScopeKind::Namespace(name), scope, n)
            }
            Some(_) => Err(LookAnswer::Redeclared),
        }
    }

    fn enter_new_space(&mut self, home: ScopeId, name: Text) -> Result<(), LookAnswer>
        requires room { self.old.spaces < 2 ^ 32 - 1 }
        requires home { home ≡ ScopeId.Space (space_around self.old) }
        ensures ok { OnOk result (space_entered [] self.old name ≡ Ok self.new) }
        ensures memory { IfErr result (λ e. e ≡ LookAnswer.Memory) }
        ensures err { OnErr result (self.new ≡ self.old) }
    {
        let space = self.spaces;
        let scope = ScopeId::Space(space);
        self.entered.reserve(1).map_err(|_| LookAnswer::Memory)?;
        self.tables
            .add(self.alloc, home, name.as_slice(), Entity::Space(scope))
            .map_err(|_| LookAnswer::Memory)?;
        self.spaces = space + 1;
        let kind = ScopeKind::Namespace(name);
        self.entered
            .push(new_scope(self.alloc, kind, Some(scope), space))
            .unwrap();
        Ok(())
    }

    fn enter_class(&mut self, class: ClassId, bases: List<ClassId>) -> Result<(), LookAnswer>
        ensures ok { OnOk result (entered_with self.old (ScopeKind.Class class bases) ≡ Ok self.new) }
        ensures memory { IfErr result (λ e. e ≡ LookAnswer.Memory) }
        ensures err { OnErr result (self.new ≡ self.old) }
    {
        let space = self.space_around();
        self.entered.reserve(1).map_err(|_| LookAnswer::Memory)?;
        keep_class(
            self.alloc,
            &mut self.classes,
            class,
            bases.as_slice(),
            space,
        )
        .map_err(|_| LookAnswer::Memory)?;
        let kind = ScopeKind::Class(class, bases);
        let scope = Some(ScopeId::Class(class));
        self.entered
            .push(new_scope(self.alloc, kind, scope, space))
            .unwrap();
        Ok(())
    }

    fn enter_enum(&mut self, id: EnumId) -> Result<(), LookAnswer>
        ensures ok { OnOk result (entered_with self.old (ScopeKind.Enum id) ≡ Ok self.new) }
        ensures memory { IfErr result (λ e. e ≡ LookAnswer.Memory) }
        ensures err { OnErr result (self.new ≡ self.old) }
    {
        let space = self.space_around();
        self.entered.reserve(1).map_err(|_| LookAnswer::Memory)?;
        keep_enum(&mut self.enums, id, space).map_err(|_| LookAnswer::Memory)?;
        let scope = Some(ScopeId::Enum(id));
        self.entered
            .push(new_scope(self.alloc, ScopeKind::Enum(id), scope, space))
            .unwrap();
        Ok(())
    }

    fn push(
        &mut self,
        kind: ScopeKind,
        scope: Option<ScopeId>,
        space: u32,
    ) -> Result<(), LookAnswer>
        ensures ok { OnOk result (self.new ≡ with_entered self.old kind scope space) }
        ensures memory { IfErr result (λ e. e ≡ LookAnswer.Memory) }
        ensures err { OnErr result (self.new ≡ self.old) }
    {
        match self.entered.push(new_scope(self.alloc, kind, scope, space)) {
            Ok(()) => Ok(()),
            Err(_) => Err(LookAnswer::Memory),
        }
    }
}
