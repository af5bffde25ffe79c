//! The names of every scope that keeps its declarations.
ghost use Rattle.std.specs.Prelude.{◌≡◌, [], OnOk, OnErr};
ghost use Rattle.cx_scopes.specs.Names.{meanings};
ghost use Rattle.cx_scopes.specs.Scopes.{names_at, with_name};

use crate::kinds::{Entity, ScopeId};
use crate::table::NameTable;
use cx_base::Memory;
use indexmap::IndexMap;
use std::alloc::Global;
use std::marker::Model;

/// A table of names for each namespace, class and enumeration that has some, found by its hash.
#[derive(Drop)]
pub struct ScopeNames {
    tables: IndexMap<ScopeId, NameTable>,
}

impl Model for ScopeNames {
    ghost use Rattle.std.specs.Prelude.{List, ℕ};
    ghost use Rattle.cx_scopes.specs.declared.kinds.ScopeId.{ScopeId};
    ghost use Rattle.cx_scopes.specs.Names.{Names};

    ghost Value = { List (ScopeId × Names) };

    ghost view = { λ t. t.tables.entries };
}

impl ScopeNames {
    /// No names in any scope.
    pub fn new(alloc: Global) -> ScopeNames
        ensures { result ≡ [] }
    {
        ScopeNames {
            tables: IndexMap::new(alloc),
        }
    }

    /// What the name means in this scope, in order of declaration. It takes two look-ups by hash.
    pub fn meanings(&self, place: ScopeId, name: &[u8]) -> &[Entity]
        ensures { result.now ≡ meanings (names_at self.now place) name.now }
    {
        match self.tables.get(&place) {
            Some(table) => table.meanings(name),
            None => &[],
        }
    }

    /// Gives the name one more meaning in this scope. A refusal changes nothing.
    pub fn add(
        &mut self,
        alloc: Global,
        place: ScopeId,
        name: &[u8],
        entity: Entity,
    ) -> Result<(), Memory>
        ensures ok { OnOk result (self.new ≡ with_name self.old place name.now entity) }
        ensures err { OnErr result (self.new ≡ self.old) }
    {
        match self.tables.get_mut(&place) {
            Some(table) => table.add(alloc, name, entity),
            None => self.add_table(alloc, place, name, entity),
        }
    }

    fn add_table(
        &mut self,
        alloc: Global,
        place: ScopeId,
        name: &[u8],
        entity: Entity,
    ) -> Result<(), Memory>
        requires { names_at self.old place ≡ [] }
        ensures ok { OnOk result (self.new ≡ with_name self.old place name.now entity) }
        ensures err { OnErr result (self.new ≡ self.old) }
    {
        let mut table = NameTable::new(alloc);
        table.add(alloc, name, entity)?;
        match self.tables.insert(place, table) {
            Ok(_) => Ok(()),
            Err(_) => Err(Memory),
        }
    }
}
