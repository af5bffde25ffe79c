//! The integer types in a program's tables ([basic.fundamental]).

ghost use Rattle.std.specs.Prelude.{◌≡◌, ◌+◌, ◌<◌, ◌≤◌, ◌^◌, length, slice_get, Some, IfOk};
ghost use Rattle.cx_type_defs.specs.Tables.{Grows as TypesGrow};
ghost use Rattle.cx_typed.specs.Shown.{vars_shown};
ghost use Rattle.cx_exprs.specs.Desks.{HasInts, id_in, int_row};

use cx_base::{IntType, Memory};
use cx_typed::Program;
use cx_types::{TypeId, TypeKind, TypeRow};

/// The number of each integer type.
#[derive(Clone, Copy)]
pub struct Ints {
    pub bool_id: TypeId,
    pub char_id: TypeId,
    pub schar_id: TypeId,
    pub uchar_id: TypeId,
    pub short_id: TypeId,
    pub ushort_id: TypeId,
    pub int_id: TypeId,
    pub uint_id: TypeId,
    pub long_id: TypeId,
    pub ulong_id: TypeId,
    pub long_long_id: TypeId,
    pub ulong_long_id: TypeId,
}

/// The number of an integer type.
pub fn id_of(ints: &Ints, ty: IntType) -> TypeId
    ensures { result ≡ id_in ints.now ty }
{
    match ty {
        IntType::Bool => ints.bool_id,
        IntType::Char => ints.char_id,
        IntType::SChar => ints.schar_id,
        IntType::UChar => ints.uchar_id,
        IntType::Short => ints.short_id,
        IntType::UShort => ints.ushort_id,
        IntType::Int => ints.int_id,
        IntType::UInt => ints.uint_id,
        IntType::Long => ints.long_id,
        IntType::ULong => ints.ulong_id,
        IntType::LongLong => ints.long_long_id,
        IntType::ULongLong => ints.ulong_long_id,
    }
}
