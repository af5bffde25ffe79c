//! The values of integer types and of enumerations ([basic.fundamental], [dcl.enum]).
ghost use Rattle.std.specs.Prelude.{◌≡◌, ◌≤◌, ◌^◌, ◌≤ℤ◌, pos, Some, IsSome};
ghost use Rattle.cx_type_defs.specs.Tables.{under_of};
ghost use Rattle.cx_type_defs.specs.Enums.{bit_values, type_values, field_of_bits, holds, underlying, field_values, enum_values};

use crate::decl::EnumEnd;
use cx_base::IntType;

/// The least and the greatest value of the type.
#[tactic(auto, unfolding(cx_ints::specs::Ranges::least, cx_ints::specs::Ranges::greatest, cx_ints::specs::Ranges::is_signed, cx_ints::specs::Ranges::width))]
pub fn type_values(ty: IntType) -> (i128, i128)
    ensures { result ≡ type_values ty }
{
    match ty {
        IntType::Bool => (0, 1),
        IntType::Char | IntType::SChar => (-0x80, 0x7f),
        IntType::UChar => (0, 0xff),
        IntType::Short => (-0x8000, 0x7fff),
        IntType::UShort => (0, 0xffff),
        IntType::Int => (-0x8000_0000, 0x7fff_ffff),
        IntType::UInt => (0, 0xffff_ffff),
        IntType::Long | IntType::LongLong => (-0x8000_0000_0000_0000, 0x7fff_ffff_ffff_ffff),
        IntType::ULong | IntType::ULongLong => (0, 0xffff_ffff_ffff_ffff),
    }
}

fn power(bits: u32) -> i128
    requires { bits ≤ 65 }
    ensures value { result ≡ pos (2 ^ bits) }
    ensures bounded { result ≤ℤ pos (2 ^ 65) }
{
    2i128.pow(bits)
}

fn bit_values(signed: bool, bits: u32) -> (i128, i128)
    requires some { 1 ≤ bits }
    requires few { bits ≤ 65 }
    ensures { result ≡ bit_values signed bits }
{
    if signed {
        let half = power(bits - 1);
        (-half, half - 1)
    } else {
        (0, power(bits) - 1)
    }
}

fn field_of_bits(low: i128, bits: u32) -> (i128, i128)
    requires some { 1 ≤ bits }
    requires few { bits ≤ 65 }
    ensures { result ≡ field_of_bits low bits }
{
    bit_values(low <= -1, bits)
}

/// Both numbers are among the values.
fn holds(values: (i128, i128), low: i128, high: i128) -> bool
    ensures { result ≡ holds values low high }
{
    values.0 <= low && high <= values.1
}

fn type_holds(ty: IntType, low: i128, high: i128) -> bool
    ensures { result ≡ holds (type_values ty) low high }
{
    holds(type_values(ty), low, high)
}

/// The underlying type of an enumeration that fixes none: the first of int, unsigned int, long and unsigned long that
/// holds its least and its greatest enumerator; None where none of them does ([dcl.enum]).
pub fn underlying_of(low: i128, high: i128) -> Option<IntType>
    ensures { result ≡ underlying low high }
{
    if type_holds(IntType::Int, low, high) {
        Some(IntType::Int)
    } else if type_holds(IntType::UInt, low, high) {
        Some(IntType::UInt)
    } else if type_holds(IntType::Long, low, high) {
        Some(IntType::Long)
    } else if type_holds(IntType::ULong, low, high) {
        Some(IntType::ULong)
    } else {
        None
    }
}

/// The values of the smallest bit-field that holds both numbers.
fn field_values(low: i128, high: i128) -> (i128, i128)
    ensures { result ≡ field_values low high }
{
    for bits in 1..65 {
        let values = field_of_bits(low, bits);
        if holds(values, low, high) {
            return values;
        }
    }
    field_of_bits(low, 65)
}

/// The least and the greatest value of an enumeration whose underlying type is known.
pub fn enum_values(fixed: Option<IntType>, end: Option<EnumEnd>) -> (i128, i128)
    requires { IsSome (under_of fixed end) }
    ensures { enum_values fixed end ≡ Some result }
{
    match fixed {
        Some(ty) => type_values(ty),
        None => {
            let end = end.unwrap();
            field_values(end.low, end.high)
        }
    }
}
