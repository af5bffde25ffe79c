//! A table of names, each with a value, in the order in which they were declared.
ghost use Rattle.std.specs.Prelude.{◌≡◌, [], ◌∷◌, ◌++◌, None, OnOk, OnErr};
ghost use Rattle.cx_unit.specs.Names.{value_among, with_name};

use cx_base::Memory;
use indexmap::IndexMap;
use std::alloc::Global;
use std::marker::Model;

/// Names in order of declaration, each with a value. Contracts see the list of the names' bytes with their values.
#[derive(Drop)]
pub struct Names<V: Copy + Drop> {
    table: IndexMap<Vec<u8>, V>,
}

impl<V: Copy + Drop> Model for Names<V> {
    ghost use Rattle.std.specs.Prelude.{List, ℕ};
    ghost use Rattle.std.specs.Coded.{coded_list, coded×, coded_ℕ};
    ghost use Rattle.cx_unit.specs.Names.{named_entries};

    ghost Value = { List (List ℕ × V) };

    ghost coded = { coded_list (coded× (coded_list coded_ℕ) V.code) };

    ghost view = { λ names. named_entries names.table.entries };
}

impl<V: Copy + Drop> Names<V> {
    /// No names.
    pub fn new(alloc: Global) -> Names<V>
        ensures { result ≡ [] }
    {
        Names {
            table: IndexMap::new(alloc),
        }
    }

    /// The value of a name, if it was declared. It takes one look-up by hash.
    pub fn value(&self, name: &[u8]) -> Option<V>
        ensures { result ≡ value_among self.now name.now }
    {
        self.table.get(name).copied()
    }

    /// Declares a name that was not there, after the others. A refused declaration changes nothing.
    pub fn declare(&mut self, alloc: Global, name: &[u8], value: V) -> Result<(), Memory>
        requires { value_among self.old name.now ≡ None }
        ensures ok { OnOk result (self.new ≡ self.old ++ (name.now, value) ∷ []) }
        ensures err { OnErr result (self.new ≡ self.old) }
    {
        let Ok(key) = Vec::from_slice(alloc, name) else {
            return Err(Memory);
        };
        let Ok(_) = self.table.insert(key, value) else {
            return Err(Memory);
        };
        Ok(())
    }

    /// Declares a name after the others, unless it was declared before. A refused declaration changes nothing.
    pub fn declare_first(&mut self, alloc: Global, name: &[u8], value: V) -> Result<(), Memory>
        ensures ok { OnOk result (self.new ≡ with_name self.old name.now value) }
        ensures err { OnErr result (self.new ≡ self.old) }
    {
        match self.value(name) {
            Some(_) => Ok(()),
            None => self.declare(alloc, name, value),
        }
    }
}
