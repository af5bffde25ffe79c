//! The names of one scope.
ghost use Rattle.std.specs.Prelude.{◌≡◌, [], OnOk, OnErr};
ghost use Rattle.cx_scopes.specs.Names.{meanings, with_meaning};

use crate::kinds::Entity;
use cx_base::{List, Memory};
use indexmap::IndexMap;
use std::alloc::Global;
use std::marker::Model;

/// The names of a scope in order of their first declarations, each with its meanings in order; a name is found by its
/// hash.
#[derive(Drop)]
pub struct NameTable {
    names: IndexMap<Vec<u8>, List<Entity>>,
}

impl Model for NameTable {
    ghost use Rattle.std.specs.Prelude.{List, ℕ, map};
    ghost use Rattle.cx_scopes.specs.declared.kinds.Entity.{Entity};

    ghost Value = { List (List ℕ × List Entity) };

    ghost view = { λ t. map (λ entry. (entry.0.items, entry.1)) t.names.entries };
}

impl NameTable {
    /// No names.
    pub fn new(alloc: Global) -> NameTable
        ensures { result ≡ [] }
    {
        NameTable {
            names: IndexMap::new(alloc),
        }
    }

    /// What the name means, in order of declaration. It takes one look-up by hash.
    pub fn meanings(&self, name: &[u8]) -> &[Entity]
        ensures { result.now ≡ meanings self.now name.now }
    {
        match self.names.get(name) {
            Some(entities) => entities.as_slice(),
            None => &[],
        }
    }

    /// Gives the name one more meaning. A refusal changes nothing.
    pub fn add(&mut self, alloc: Global, name: &[u8], entity: Entity) -> Result<(), Memory>
        ensures ok { OnOk result (self.new ≡ with_meaning self.old name.now entity) }
        ensures err { OnErr result (self.new ≡ self.old) }
    {
        match self.names.get_mut(name) {
            Some(entities) => entities.push(entity),
            None => self.add_name(alloc, name, entity),
        }
    }

    fn add_name(&mut self, alloc: Global, name: &[u8], entity: Entity) -> Result<(), Memory>
        requires { meanings self.old name.now ≡ [] }
        ensures ok { OnOk result (self.new ≡ with_meaning self.old name.now entity) }
        ensures err { OnErr result (self.new ≡ self.old) }
    {
        let Ok(key) = Vec::from_slice(alloc, name) else {
            return Err(Memory);
        };
        let mut entities = List::new(alloc);
        entities.push(entity)?;
        match self.names.insert(key, entities) {
            Ok(_) => Ok(()),
            Err(_) => Err(Memory),
        }
    }
}
