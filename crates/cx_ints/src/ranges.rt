//! The values of each integer type.
ghost use Rattle.std.specs.Prelude.{◌≡◌, ◌≤◌, ◌↔◌, ◌^◌, ◌≤ℤ◌, pos, negsuc, IsTrue};
ghost use Rattle.cx_ints.specs.Ranges.{Fits, fits, greatest, is_signed, least, width};

use cx_base::IntType;

/// Whether the type is signed.
#[tactic(auto, unfolding(crate::specs::Ranges::is_signed))]
pub(crate) fn is_signed(ty: IntType) -> bool
    ensures { result ≡ is_signed ty }
{
    match ty {
        IntType::Bool | IntType::UChar | IntType::UShort => false,
        IntType::UInt | IntType::ULong | IntType::ULongLong => false,
        IntType::Char | IntType::SChar | IntType::Short => true,
        IntType::Int | IntType::Long | IntType::LongLong => true,
    }
}

/// How many bits the type's values take.
#[tactic(auto, unfolding(crate::specs::Ranges::width))]
pub(crate) fn width(ty: IntType) -> u32
    ensures value { result ≡ width ty }
    ensures bounded { result ≤ 64 }
{
    match ty {
        IntType::Bool => 1,
        IntType::Char | IntType::SChar | IntType::UChar => 8,
        IntType::Short | IntType::UShort => 16,
        IntType::Int | IntType::UInt => 32,
        IntType::Long | IntType::ULong | IntType::LongLong | IntType::ULongLong => 64,
    }
}

/// How many values the type has.
#[tactic(auto, unfolding(crate::specs::Ranges::width))]
pub(crate) fn size(ty: IntType) -> i128
    ensures value { result ≡ pos (2 ^ width ty) }
    ensures positive { pos 1 ≤ℤ result }
    ensures bounded { result ≤ℤ pos (2 ^ 64) }
{
    match ty {
        IntType::Bool => 2,
        IntType::Char | IntType::SChar | IntType::UChar => 0x100,
        IntType::Short | IntType::UShort => 0x1_0000,
        IntType::Int | IntType::UInt => 0x1_0000_0000,
        IntType::Long | IntType::ULong => 0x1_0000_0000_0000_0000,
        IntType::LongLong | IntType::ULongLong => 0x1_0000_0000_0000_0000,
    }
}

/// The type's least value.
#[tactic(auto, unfolding(crate::specs::Ranges::least, crate::specs::Ranges::is_signed, crate::specs::Ranges::width))]
pub(crate) fn least(ty: IntType) -> i128
    ensures value { result ≡ least ty }
    ensures bounded { negsuc 9223372036854775807 ≤ℤ result }
    ensures not_positive { result ≤ℤ pos 0 }
{
    match ty {
        IntType::Bool | IntType::UChar | IntType::UShort => 0,
        IntType::UInt | IntType::ULong | IntType::ULongLong => 0,
        IntType::Char | IntType::SChar => -0x80,
        IntType::Short => -0x8000,
        IntType::Int => -0x8000_0000,
        IntType::Long | IntType::LongLong => -0x8000_0000_0000_0000,
    }
}

/// The type's greatest value.
#[tactic(auto, unfolding(crate::specs::Ranges::greatest, crate::specs::Ranges::is_signed, crate::specs::Ranges::width))]
pub(crate) fn greatest(ty: IntType) -> i128
    ensures { result ≡ greatest ty }
{
    match ty {
        IntType::Bool => 1,
        IntType::Char | IntType::SChar => 0x7f,
        IntType::UChar => 0xff,
        IntType::Short => 0x7fff,
        IntType::UShort => 0xffff,
        IntType::Int => 0x7fff_ffff,
        IntType::UInt => 0xffff_ffff,
        IntType::Long | IntType::LongLong => 0x7fff_ffff_ffff_ffff,
        IntType::ULong | IntType::ULongLong => 0xffff_ffff_ffff_ffff,
    }
}

/// Whether the value is one of the type's ([basic.fundamental]).
#[tactic(auto, unfolding(crate::specs::Ranges::fits, crate::specs::Ranges::Fits))]
pub fn fits(value: i128, ty: IntType) -> bool
    ensures test { result ≡ fits ty value }
    ensures fact { IsTrue result ↔ Fits ty value }
{
    least(ty) <= value && value <= greatest(ty)
}
