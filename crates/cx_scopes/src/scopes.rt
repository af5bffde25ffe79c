//! The scopes of a translation unit.
ghost use Rattle.std.specs.Prelude.{◌≡◌, ◌≢◌, [], IfOk};
ghost use Rattle.std.specs.Option.{option_copied};
ghost use Rattle.cx_scopes.specs.Scopes.{no_scopes, kind_around, meanings_at, space_around, place_of, bases_of};
ghost use Rattle.cx_scopes.specs.Steps.{left};

use crate::entered::{Entered, place, space_around};
use crate::kept::ClassScope;
use crate::kinds::{Entity, ScopeId, ScopeKind};
use crate::tables::ScopeNames;
use cx_base::Memory;
use cx_type_defs::{ClassId, EnumId, TypeId};
use indexmap::IndexMap;
use std::alloc::Global;
use std::marker::Model;

/// Scopes and what is declared in them. The global namespace is entered at first.
///
/// Contracts see how many namespaces there are, the names of each namespace, class and enumeration with their
/// meanings, the classes and enumerations that were entered, the types that were named, and the scopes that are
/// entered and not left, innermost first.
#[derive(Drop)]
pub struct Scopes {
    pub(crate) alloc: Global,
    pub(crate) spaces: u32,
    pub(crate) tables: ScopeNames,
    pub(crate) classes: IndexMap<ClassId, ClassScope>,
    pub(crate) enums: IndexMap<EnumId, u32>,
    pub(crate) types: IndexMap<TypeId, u32>,
    pub(crate) entered: Vec<Entered>,
}

impl Model for Scopes {
    ghost use Rattle.std.specs.Prelude.{reverse};
    ghost use Rattle.cx_scopes.specs.Scopes.{ScopeTables};

    ghost Value = { ScopeTables };

    ghost view = { λ s. record { spaces = s.spaces; tables = s.tables; classes = s.classes.entries; enums = s.enums.entries; types = s.types.entries; entered = reverse s.entered.items } };
}

impl Scopes {
    /// The global namespace, without names.
    pub fn new(alloc: Global) -> Result<Scopes, Memory>
        ensures { IfOk result (λ s. s ≡ no_scopes) }
    {
        Ok(Scopes {
            alloc,
            spaces: 1,
            tables: ScopeNames::new(alloc),
            classes: IndexMap::new(alloc),
            enums: IndexMap::new(alloc),
            types: IndexMap::new(alloc),
            entered: Vec::new(alloc),
        })
    }

    /// Leaves the innermost scope. A function's or block's declarations go with it, and those of a namespace, class or
    /// enumeration stay ([basic.scope.block], [basic.scope.namespace], [basic.scope.class]). The global namespace
    /// isn't left.
    pub fn leave(&mut self)
        requires { self.old.entered ≢ [] }
        ensures { self.new ≡ left self.old }
    {
        let _ = self.entered.pop();
    }

    /// The kind of the i-th scope that is entered and not left, from 0 at the innermost, the global namespace not
    /// counted; None exactly where there are at most i.
    pub fn around(&self, i: u32) -> Option<&ScopeKind>
        ensures { option_copied result ≡ kind_around self.now i }
    {
        let count = self.entered.len();
        let i = i as usize;
        if i < count {
            Some(&self.entered[count - 1 - i].kind)
        } else {
            None
        }
    }

    /// The number of the innermost namespace that is entered.
    pub(crate) fn space_around(&self) -> u32
        ensures { result ≡ space_around self.now }
    {
        space_around(self.entered.as_slice())
    }

    /// The innermost namespace that is entered.
    pub fn innermost_space(&self) -> ScopeId
        ensures { result ≡ ScopeId.Space (space_around self.now) }
    {
        ScopeId::Space(self.space_around())
    }

    /// The present scope, if it is a namespace, class or enumeration; None in a function or block.
    pub fn place(&self) -> Option<ScopeId>
        ensures { result ≡ place_of self.now.entered }
    {
        place(self.entered.as_slice())
    }

    /// What the name means in this scope, bases aside.
    pub(crate) fn meanings_at(&self, place: ScopeId, name: &[u8]) -> &[Entity]
        ensures { result.now ≡ meanings_at self.now place name.now }
    {
        self.tables.meanings(place, name)
    }

    /// The direct bases that a class's scope keeps, in order; a class that was never entered has none.
    pub fn bases_of(&self, class: ClassId) -> &[ClassId]
        ensures { result.now ≡ bases_of self.now class }
    {
        match self.classes.get(&class) {
            Some(scope) => scope.bases.as_slice(),
            None => &[],
        }
    }
}
