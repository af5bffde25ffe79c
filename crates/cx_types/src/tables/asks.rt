ghost use Rattle.std.specs.Prelude.{◌≡◌, ℕ, ◌+◌, ◌*◌, ◌<◌, ◌≤◌, true, length, slice_get, Option, Some, None, option_map};
ghost use Rattle.cx_type_defs.specs.Tables.{Tables, IsKnown, int_size, under_at};
ghost use Rattle.cx_type_defs.specs.Questions.{OfType, OfClass, asked, extent_of, bytes, is_complete, literal_answer, size_answer, align_answer, cells_answer};
ghost use Rattle.cx_types.specs.Kept.{KeptType, KeptRow, IsLeafAt};

use crate::facts::RowFacts;
use crate::tables::Types;
use cx_base::{IntType, Rule};
use cx_type_defs::{ClassId, EnumId, Extent, TypeId, TypeKind, TypeRow};

impl Types {
    /// What is kept of a type; None exactly where it is an incomplete class.
    pub(crate) fn kept(&self, id: TypeId) -> Option<RowFacts>
        requires { id.0 < length self.now.rows }
        ensures { KeptType self.now id result }
    {
        match self.row(id).kind {
            TypeKind::Class(class) => {
                let measure = self.measure_of(class)?;
                Some(RowFacts {
                    facts: measure.facts,
                    count: 1,
                    leaf: id,
                })
            }
            _ => Some(self.facts[id.0 as usize]),
        }
    }

    /// Whether the type is a literal type ([basic.types.general]).
    pub fn is_literal(&self, id: TypeId) -> bool
        requires { id.0 < length self.now.rows }
        ensures { result ≡ literal_answer self.now id }
    {
        match self.kept(id) {
            Some(kept) => kept.facts.literal,
            None => false,
        }
    }

    fn known_row(&self, id: TypeId) -> TypeRow
        requires { id.0 < length self.now.rows }
        ensures stands { slice_get self.now.rows id.0 ≡ Some result }
        ensures known { IsKnown self.now result.kind }
    {
        let row = self.rows.at(id.0 as usize);
        row
    }

    fn enum_extent(&self, id: EnumId) -> Option<Option<Extent>>
        requires { id.0 < length self.now.enums }
        ensures { result ≡ option_map bytes (option_map int_size (under_at self.now id)) }
    {
        match self.under(id) {
            Some(under) => Some(bytes_of(int_bytes(under))),
            None => None,
        }
    }

    fn class_extent(&self, class: ClassId) -> Option<Option<Extent>>
        requires { class.0 < length self.now.classes }
        ensures { result ≡ asked extent_of self.now (OfClass class) }
    {
        match self.measure_of(class) {
            Some(measure) => Some(measure.extent),
            None => None,
        }
    }

    fn leaf_extent(&self, id: TypeId) -> Option<Option<Extent>>
        requires known { id.0 < length self.now.rows }
        requires leaf { IsLeafAt self.now id }
        ensures { result ≡ asked extent_of self.now (OfType id) }
    {
        match self.known_row(id).kind {
            TypeKind::Void => None,
            TypeKind::Nullptr => Some(bytes_of(8)),
            TypeKind::Int(ty) => Some(bytes_of(int_bytes(ty))),
            TypeKind::Enum(id) => self.enum_extent(id),
            TypeKind::Pointer(_) => Some(bytes_of(8)),
            TypeKind::Reference(_) => Some(bytes_of(8)),
            TypeKind::Array(_, _) => None,
            TypeKind::Class(class) => self.class_extent(class),
        }
    }

    /// The type's extent: None where it is incomplete, and no extent inside where the profile gives none.
    pub(crate) fn extent(&self, id: TypeId) -> Option<Option<Extent>>
        requires { id.0 < length self.now.rows }
        ensures { result ≡ asked extent_of self.now (OfType id) }
    {
        match self.kept(id) {
            None => None,
            Some(kept) => self.spread_extent(id, kept),
        }
    }

    fn spread_extent(&self, id: TypeId, kept: RowFacts) -> Option<Option<Extent>>
        requires { KeptRow self.now id kept }
        ensures { result ≡ asked extent_of self.now (OfType id) }
    {
        match self.leaf_extent(kept.leaf) {
            None => None,
            Some(None) => Some(None),
            Some(Some(leaf)) => Some(Some(Extent {
                size: u64::from(kept.count) * leaf.size,
                align: leaf.align,
            })),
        }
    }

    /// How many bytes an object of the type takes ([expr.sizeof]).
    pub fn size_of(&self, id: TypeId) -> Result<u64, Rule>
        requires { id.0 < length self.now.rows }
        ensures { result ≡ size_answer self.now id }
    {
        match self.extent(id) {
            None => Err(Rule::Incomplete),
            Some(None) => Err(Rule::SizeProfile),
            Some(Some(extent)) => Ok(extent.size),
        }
    }

    /// Of what the addresses of the type's objects are multiples ([expr.alignof]).
    pub fn align_of(&self, id: TypeId) -> Result<u64, Rule>
        requires { id.0 < length self.now.rows }
        ensures { result ≡ align_answer self.now id }
    {
        match self.extent(id) {
            None => Err(Rule::Incomplete),
            Some(None) => Err(Rule::SizeProfile),
            Some(Some(extent)) => Ok(extent.align),
        }
    }

    /// How many cells an object of the type has.
    pub fn cells(&self, id: TypeId) -> Result<u32, Rule>
        requires { id.0 < length self.now.rows }
        ensures { result ≡ cells_answer self.now id }
    {
        match self.extent(id) {
            None => Err(Rule::Incomplete),
            Some(_) => self.known_cells(id),
        }
    }

    fn known_cells(&self, id: TypeId) -> Result<u32, Rule>
        requires known { id.0 < length self.now.rows }
        requires complete { is_complete self.now id ≡ true }
        ensures { result ≡ cells_answer self.now id }
    {
        match self.kept(id) {
            None => Err(Rule::Incomplete),
            Some(kept) => Ok(kept.facts.cells),
        }
    }
}

fn bytes_of(n: u64) -> Option<Extent>
    ensures { result ≡ bytes n }
{
    Some(Extent { size: n, align: n })
}

fn int_bytes(ty: IntType) -> u64
    ensures { result ≡ int_size ty }
{
    match ty {
        IntType::Bool => 1,
        IntType::Char => 1,
        IntType::SChar => 1,
        IntType::UChar => 1,
        IntType::Short => 2,
        IntType::UShort => 2,
        IntType::Int => 4,
        IntType::UInt => 4,
        IntType::Long => 8,
        IntType::ULong => 8,
        IntType::LongLong => 8,
        IntType::ULongLong => 8,
    }
}
