//! Sets of namespaces.
ghost use Rattle.std.specs.Prelude.{◌≡◌, ◌<◌, [], length, slice_get, Some, OnOk, OnErr, IfErr};
ghost use Rattle.cx_scopes.specs.Arguments.{with_space_once};

use crate::kinds::LookAnswer;
use indexmap::IndexSet;
use std::alloc::Global;
use std::marker::Model;

/// Namespaces in order of first mention, each once, found by their hash.
#[derive(Drop)]
pub struct SpaceSet {
    spaces: IndexSet<u32>,
}

impl Model for SpaceSet {
    ghost use Rattle.std.specs.Prelude.{List, ℕ};

    ghost Value = { List ℕ };

    ghost view = { λ s. s.spaces.keys };
}

impl SpaceSet {
    /// No namespaces.
    pub fn new(alloc: Global) -> SpaceSet
        ensures { result ≡ [] }
    {
        SpaceSet {
            spaces: IndexSet::new(alloc),
        }
    }

    /// Puts a namespace in, unless it is there. A refusal changes nothing.
    pub fn add(&mut self, space: u32) -> Result<(), LookAnswer>
        ensures ok { OnOk result (self.new ≡ with_space_once self.old space) }
        ensures memory { OnErr result (self.new ≡ self.old) }
        ensures err { IfErr result (λ e. e ≡ LookAnswer.Memory) }
    {
        match self.spaces.insert(space) {
            Ok(_) => Ok(()),
            Err(_) => Err(LookAnswer::Memory),
        }
    }

    /// How many there are.
    pub fn len(&self) -> usize
        ensures { result ≡ length self.now }
    {
        self.spaces.len()
    }

    /// The one at a place, from 0.
    pub fn at(&self, i: usize) -> u32
        requires { i < length self.now }
        ensures { slice_get self.now i ≡ Some result }
    {
        *self.spaces.get_index(i).unwrap()
    }
}
