ghost use Rattle.std.specs.Prelude.{◌≡◌, ℕ, ◌+◌, ◌-◌, ◌^◌, ◌<◌, ◌≤◌, ◌⊎◌, [], ◌∷◌, ◌++◌, length, slice_get, true, Option, Some, None, IfOk, IfErr, OnOk, OnErr};
ghost use Rattle.cx_type_defs.specs.Tables.{Tables, with_row, IsKnown};
ghost use Rattle.cx_type_defs.specs.Same.{is_normal};
ghost use Rattle.cx_type_defs.specs.Refusals.{kind_refusal, Refuses};
ghost use Rattle.cx_types.specs.Kept.{IsAddressDepth, RowFound, KeptRow, IsPlainAt};

use crate::facts::{Facts, RowFacts};
use crate::tables::Types;
use cx_type_defs::{ClassId, TypeAnswer, TypeId, TypeKind, TypeRow};

const MOST_DEPTH: u32 = 512;

const MOST_CELLS: u64 = 1_073_741_824;

const MOST_NODES: u32 = 1_048_576;

/// What is found of void.
fn found_void(leaf: TypeId) -> RowFacts
    ensures { result ≡ record { facts = record { depth = 1; cells = 0; nodes = 1; literal = true }; count = 0; leaf = leaf } }
{
    RowFacts {
        facts: Facts {
            depth: 1,
            cells: 0,
            nodes: 1,
            literal: true,
        },
        count: 0,
        leaf,
    }
}

/// What is found of a scalar or a reference.
fn found_scalar(leaf: TypeId, depth: u32) -> RowFacts
    ensures { result ≡ record { facts = record { depth = depth; cells = 1; nodes = 1; literal = true }; count = 1; leaf = leaf } }
{
    RowFacts {
        facts: Facts {
            depth,
            cells: 1,
            nodes: 1,
            literal: true,
        },
        count: 1,
        leaf,
    }
}

impl Types {
    fn address_depth(&self, to: TypeId) -> u32
        requires { to.0 < length self.now.rows }
        ensures { IsAddressDepth self.now to result }
    {
        match (self.row(to).kind, self.kept(to)) {
            (TypeKind::Class(_), _) => 1,
            (_, Some(kept)) => kept.facts.depth + 1,
            (_, None) => 1,
        }
    }

    fn found_pointer(&self, id: TypeId, to: TypeId) -> Result<RowFacts, TypeAnswer>
        requires { to.0 < length self.now.rows }
        ensures { RowFound self.now id (TypeKind.Pointer to) result }
    {
        let _ = self.row(to);
        let depth = self.address_depth(to);
        if depth > MOST_DEPTH {
            return Err(TypeAnswer::TooLarge);
        }
        Ok(found_scalar(id, depth))
    }

    fn found_array(&self, id: TypeId, of: TypeId, n: u32) -> Result<RowFacts, TypeAnswer>
        requires { IsKnown self.now (TypeKind.Array of n) }
        ensures { RowFound self.now id (TypeKind.Array of n) result }
    {
        if matches!(self.row(of).kind, TypeKind::Void | TypeKind::Reference(_)) {
            return Err(TypeAnswer::Incomplete);
        }
        match self.kept(of) {
            None => Err(TypeAnswer::Incomplete),
            Some(element) => self.found_elements(id, of, n, element),
        }
    }

    fn found_elements(
        &self,
        id: TypeId,
        of: TypeId,
        n: u32,
        element: RowFacts,
    ) -> Result<RowFacts, TypeAnswer>
        requires known { IsKnown self.now (TypeKind.Array of n) }
        requires plain { IsPlainAt self.now of }
        requires kept { KeptRow self.now of element }
        ensures { RowFound self.now id (TypeKind.Array of n) result }
    {
        let cells = u64::from(n) * u64::from(element.facts.cells);
        if element.facts.depth >= MOST_DEPTH
            || cells > MOST_CELLS
            || element.facts.nodes >= MOST_NODES
        {
            return Err(TypeAnswer::TooLarge);
        }
        Ok(RowFacts {
            facts: Facts {
                depth: element.facts.depth + 1,
                cells: cells as u32,
                nodes: element.facts.nodes + 1,
                literal: element.facts.literal,
            },
            count: n * element.count,
            leaf: element.leaf,
        })
    }

    /// Nothing is kept beside a row of a class, so it doesn't matter what is found.
    fn found_class(&self, id: TypeId, class: ClassId) -> RowFacts
        requires { IsKnown self.now (TypeKind.Class class) }
        ensures { RowFound self.now id (TypeKind.Class class) (Ok result) }
    {
        let _ = self.measure_of(class);
        found_void(id)
    }

    fn found(&self, id: TypeId, kind: TypeKind) -> Result<RowFacts, TypeAnswer>
        requires { IsKnown self.now kind }
        ensures { RowFound self.now id kind result }
    {
        match kind {
            TypeKind::Void => Ok(found_void(id)),
            TypeKind::Nullptr => Ok(found_scalar(id, 1)),
            TypeKind::Int(_) => Ok(found_scalar(id, 1)),
            TypeKind::Enum(_) => Ok(found_scalar(id, 1)),
            TypeKind::Pointer(to) => self.found_pointer(id, to),
            TypeKind::Reference(to) => self.found_pointer(id, to),
            TypeKind::Array(of, n) => self.found_array(id, of, n),
            TypeKind::Class(class) => Ok(self.found_class(id, class)),
        }
    }

    /// The number of this type; equal types have equal numbers. It asks that what the type names is known, that an
    /// array has an element, that the type is written in the one way (const of an array stands at its elements, a
    /// reference is never const, nothing leads to a reference, nor a reference to void), and that fewer than 2^32 - 1
    /// types were interned before. After a refusal the tables are as before. A call takes one look-up by hash.
    pub fn intern(&mut self, row: TypeRow) -> Result<TypeId, TypeAnswer>
        requires known { IsKnown self.old row.kind }
        requires normal { is_normal self.old row ≡ true }
        requires room { length self.old.rows < 2 ^ 32 - 1 }
        ensures taken { OnOk result (kind_refusal self.old row.kind ≡ None) }
        ensures refused { IfErr result (λ e. Refuses (kind_refusal self.old row.kind) e) }
        ensures stands { IfOk result (λ id. slice_get self.new.rows id.0 ≡ Some row) }
        ensures once { IfOk result (λ id. (j : ℕ) → slice_get self.new.rows j ≡ Some row → j ≡ id.0) }
        ensures grows { OnOk result ((self.new ≡ self.old) ⊎ (self.new ≡ with_row self.old row)) }
        ensures err { OnErr result (self.new ≡ self.old) }
    {
        let next = TypeId(self.rows.len() as u32);
        let facts = self.found(next, row.kind)?;
        match self.facts.reserve(1) {
            Ok(()) => {}
            Err(_) => return Err(TypeAnswer::Memory),
        }
        match self.rows.add(row) {
            Ok((id, fresh)) => {
                if fresh {
                    self.facts.push(facts).unwrap();
                }
                Ok(id)
            }
            Err(_) => Err(TypeAnswer::Memory),
        }
    }
}
