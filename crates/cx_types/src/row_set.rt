ghost use Rattle.std.specs.Prelude.{◌≡◌, ℕ, ◌-◌, ◌^◌, ◌<◌, [], ◌∷◌, ◌++◌, length, slice_get, true, false, IfOk, OnErr};
ghost use Rattle.std.specs.List.{Contains};

use cx_base::Memory;
use cx_type_defs::{TypeId, TypeRow};
use indexmap::IndexSet;
use std::alloc::Global;
use std::marker::Model;

/// Types in order of interning, each once, found by its hash.
#[derive(Debug, Drop)]
pub struct RowSet {
    rows: IndexSet<TypeRow>,
}

impl Model for RowSet {
    ghost use Rattle.std.specs.Prelude.{List};
    ghost use Rattle.cx_type_defs.specs.declared.kind.TypeRow.{TypeRow};

    ghost Value = { List TypeRow };

    ghost view = { λ s. s.rows.keys };
}

impl RowSet {
    pub fn new(alloc: Global) -> RowSet
        ensures { result ≡ [] }
    {
        RowSet {
            rows: IndexSet::new(alloc),
        }
    }

    pub fn len(&self) -> usize
        ensures { result ≡ length self.now }
    {
        self.rows.len()
    }

    pub fn at(&self, i: usize) -> TypeRow
        requires { i < length self.now }
        ensures { slice_get self.now i ≡ Some result }
    {
        *self.rows.get_index(i).unwrap()
    }

    /// The row's number, and whether it is new; a new row goes to the end. A refusal changes nothing.
    pub fn add(&mut self, row: TypeRow) -> Result<(TypeId, bool), Memory>
        requires { length self.old < 2 ^ 32 - 1 }
        ensures place { IfOk result (λ r. slice_get self.new r.0.0 ≡ Some row) }
        ensures once { IfOk result (λ r. (j : ℕ) → slice_get self.new j ≡ Some row → j ≡ r.0.0) }
        ensures fresh { IfOk result (λ r. r.1 ≡ true → self.new ≡ self.old ++ row ∷ []) }
        ensures there { IfOk result (λ r. r.1 ≡ false → self.new ≡ self.old) }
        ensures err { OnErr result (self.new ≡ self.old) }
    {
        match self.rows.insert_full(row) {
            Ok((at, fresh)) => Ok((TypeId(at as u32), fresh)),
            Err(_) => Err(Memory),
        }
    }
}
