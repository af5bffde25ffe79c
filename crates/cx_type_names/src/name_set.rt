//! A set of names.
ghost use Rattle.std.specs.Prelude.{◌≡◌, OnOk, OnErr};
ghost use Rattle.std.specs.FinSet as set;

use cx_base::{Memory, Text};
use indexmap::IndexSet;
use std::alloc::Global;
use std::marker::Model;

/// A set of names, that contracts see as the set of their texts.
#[derive(Drop)]
pub struct NameSet {
    names: IndexSet<Vec<u8>>,
}

impl Model for NameSet {
    ghost use Rattle.std.specs.Prelude.{map};
    ghost use Rattle.std.specs.Ordering.{nat_cmp};
    ghost use Rattle.std.specs.Cmp.Lexicographic.{slice_cmp};
    ghost use Rattle.std.specs.FinSet as set;
    ghost use Rattle.std.specs.Coded.{coded_list, coded_ℕ};

    ghost Value = { set.FinSet (slice_cmp nat_cmp) };

    ghost coded = { set.code (coded_list coded_ℕ) };

    ghost view = { λ s. set.from_list (map (λ name. name.items) s.names.keys) };
}

impl NameSet {
    /// No names.
    pub(crate) fn new(alloc: Global) -> NameSet
        ensures { result ≡ set.empty }
    {
        NameSet {
            names: IndexSet::new(alloc),
        }
    }

    /// Whether the name is in the set. It takes one look-up by hash.
    pub fn has(&self, name: &Text) -> bool
        ensures { result ≡ set.contains self.now name.now }
    {
        self.names.contains(name.as_slice())
    }

    /// Puts a name into the set. A refused insertion changes nothing.
    pub(crate) fn add(&mut self, alloc: Global, name: &[u8]) -> Result<(), Memory>
        ensures ok { OnOk result (self.new ≡ set.insert self.old name.now) }
        ensures err { OnErr result (self.new ≡ self.old) }
    {
        if self.names.contains(name) {
            return Ok(());
        }
        let Ok(key) = Vec::from_slice(alloc, name) else {
            return Err(Memory);
        };
        let Ok(_) = self.names.insert(key) else {
            return Err(Memory);
        };
        Ok(())
    }
}
