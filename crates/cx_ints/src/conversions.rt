//! Conversions to a type, integral promotions and the common type of two operands.
ghost use Rattle.std.specs.Prelude.{◌≡◌, not};
ghost use Rattle.cx_ints.specs.Ranges.{Fits, InWord};
ghost use Rattle.cx_ints.specs.Conversions.{common, common_promoted, convert, converted, higher, is_zero, mixed, promote, rank, reduce, truth, unsigned_of};
ghost use Rattle.cx_ints.specs.Operations.{int, promoted};

use crate::int::{Int, Pair};
use crate::ranges::{greatest, is_signed, least, size, width};
use cx_base::IntType;

/// The value of the type's range that is congruent to this one modulo 2 to the type's width.
pub(crate) fn reduce(value: i128, ty: IntType) -> i128
    ensures value { result ≡ reduce ty value }
    ensures in_range { Fits ty result }
    ensures same { Fits ty value → result ≡ value }
{
    let low = least(ty);
    let size = size(ty);
    (value.rem_euclid(size) - low).rem_euclid(size) + low
}

/// The value converted to the type.
pub(crate) fn converted(value: i128, to: IntType) -> i128
    ensures value { result ≡ converted to value }
    ensures in_range { Fits to result }
    ensures same { Fits to value → result ≡ value }
    ensures word { InWord result }
{
    match to {
        IntType::Bool => to_bool(value),
        _ => reduce(value, to),
    }
}

/// 0 for 0, and 1 for every other number.
#[tactic(auto, using(crate::proofs::TypeLaws::is_zero_other))]
fn to_bool(value: i128) -> i128
    ensures { result ≡ truth (not (is_zero value)) }
{
    if value == 0 { 0 } else { 1 }
}

/// The value as one of the type `to` ([conv.integral], [conv.bool]): `bool` has 0 for 0 and 1 for every other number,
/// another type has the number of its range that is congruent modulo 2 to its width. Any whole number may be given.
#[tactic(auto, unfolding(crate::specs::Conversions::convert))]
pub fn convert(a: Int, to: IntType) -> Int
    ensures value { result ≡ convert a to }
    ensures in_range { Fits to result.value }
    ensures same { Fits to a.value → result.value ≡ a.value }
{
    Int {
        ty: to,
        value: converted(a.value, to),
    }
}

/// The operand after its own promotion.
pub(crate) fn promoted(a: Int) -> Int
    ensures value { result ≡ int (promote a.ty) (promoted a) }
    ensures in_range { Fits result.ty result.value }
    ensures word { InWord result.value }
{
    let ty = promote(a.ty);
    Int {
        ty,
        value: converted(a.value, ty),
    }
}

/// Both operands at their common type.
pub(crate) fn balanced(a: Int, b: Int) -> Pair
    ensures ty { result.ty ≡ common a.ty b.ty }
    ensures left { result.left ≡ converted (common a.ty b.ty) a.value }
    ensures right { result.right ≡ converted (common a.ty b.ty) b.value }
    ensures left_in_range { Fits result.ty result.left }
    ensures right_in_range { Fits result.ty result.right }
    ensures left_word { InWord result.left }
    ensures right_word { InWord result.right }
{
    let ty = common(a.ty, b.ty);
    Pair {
        ty,
        left: converted(a.value, ty),
        right: converted(b.value, ty),
    }
}

/// The type after the integral promotions ([conv.prom]): `int` for every narrower type, else the type itself.
#[tactic(auto, unfolding(crate::specs::Conversions::promote, crate::specs::Ranges::width), using(crate::proofs::EachType::promote_again))]
pub fn promote(ty: IntType) -> IntType
    ensures value { result ≡ promote ty }
    ensures stable { promote result ≡ result }
{
    if width(ty) < 32 { IntType::Int } else { ty }
}

/// The conversion rank ([conv.rank]): an unsigned type has its signed type's.
#[tactic(auto, unfolding(crate::specs::Conversions::rank))]
pub(crate) fn rank(ty: IntType) -> u8
    ensures { result ≡ rank ty }
{
    match ty {
        IntType::Bool => 0,
        IntType::Char | IntType::SChar | IntType::UChar => 1,
        IntType::Short | IntType::UShort => 2,
        IntType::Int | IntType::UInt => 3,
        IntType::Long | IntType::ULong => 4,
        IntType::LongLong | IntType::ULongLong => 5,
    }
}

/// The common type of two operands ([expr.arith.conv]), after the promotion of each.
#[tactic(auto, unfolding(crate::specs::Conversions::common))]
pub fn common(a: IntType, b: IntType) -> IntType
    ensures value { result ≡ common a b }
    ensures symmetric { result ≡ common b a }
    ensures stable { promote result ≡ result }
    ensures same { a ≡ b → result ≡ promote a }
{
    common_promoted(promote(a), promote(b))
}

#[tactic(auto, unfolding(crate::specs::Conversions::common_promoted))]
fn common_promoted(a: IntType, b: IntType) -> IntType
    ensures { result ≡ common_promoted a b }
{
    if is_signed(a) {
        if is_signed(b) {
            higher(a, b)
        } else {
            mixed(a, b)
        }
    } else {
        if is_signed(b) {
            mixed(b, a)
        } else {
            higher(a, b)
        }
    }
}

/// The one of higher rank.
#[tactic(auto, unfolding(crate::specs::Conversions::higher))]
fn higher(a: IntType, b: IntType) -> IntType
    ensures { result ≡ higher a b }
{
    if rank(a) < rank(b) { b } else { a }
}

/// The common type of a signed and an unsigned one.
#[tactic(auto, unfolding(crate::specs::Conversions::mixed))]
fn mixed(signed: IntType, unsigned: IntType) -> IntType
    ensures { result ≡ mixed signed unsigned }
{
    if rank(signed) <= rank(unsigned) {
        unsigned
    } else if greatest(unsigned) <= greatest(signed) {
        signed
    } else {
        unsigned_of(signed)
    }
}

/// The unsigned type of the same rank.
#[tactic(auto, unfolding(crate::specs::Conversions::unsigned_of))]
fn unsigned_of(ty: IntType) -> IntType
    ensures { result ≡ unsigned_of ty }
{
    match ty {
        IntType::Bool => IntType::Bool,
        IntType::Char | IntType::SChar | IntType::UChar => IntType::UChar,
        IntType::Short | IntType::UShort => IntType::UShort,
        IntType::Int | IntType::UInt => IntType::UInt,
        IntType::Long | IntType::ULong => IntType::ULong,
        IntType::LongLong | IntType::ULongLong => IntType::ULongLong,
    }
}
