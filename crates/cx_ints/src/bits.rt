//! Operations bit by bit, on as many bits as the type is wide.
ghost use Rattle.std.specs.Prelude.{◌≡◌, ◌-◌, ◌<◌, ◌^◌, min, max, pos};
ghost use Rattle.cx_ints.specs.Ranges.{width};
ghost use Rattle.cx_ints.specs.Conversions.{reduce};
ghost use Rattle.cx_ints.specs.Bits.{bit, of_bits, with_bits};
ghost use Rattle.cx_ints.specs.Operations.{differ, int};

use crate::conversions::reduce;
use crate::int::{Int, Pair};
use crate::ranges::size;
use cx_base::IntType;

/// The value's bits in two's complement.
fn pattern(value: i128, ty: IntType) -> u64
    ensures value { result ≡ with_bits (width ty) (λ k. bit value k) }
    ensures below { result < 2 ^ width ty }
{
    value.rem_euclid(size(ty)) as u64
}

/// The type's value with these bits.
fn from_pattern(bits: u64, ty: IntType) -> Int
    ensures { result ≡ int ty (reduce ty (pos bits)) }
{
    Int {
        ty,
        value: reduce(i128::from(bits), ty),
    }
}

pub(crate) fn bit_and(pair: Pair) -> Int
    ensures { result ≡ int pair.ty (of_bits pair.ty (λ k. min (bit pair.left k) (bit pair.right k))) }
{
    from_pattern(
        pattern(pair.left, pair.ty) & pattern(pair.right, pair.ty),
        pair.ty,
    )
}

pub(crate) fn bit_or(pair: Pair) -> Int
    ensures { result ≡ int pair.ty (of_bits pair.ty (λ k. max (bit pair.left k) (bit pair.right k))) }
{
    from_pattern(
        pattern(pair.left, pair.ty) | pattern(pair.right, pair.ty),
        pair.ty,
    )
}

pub(crate) fn bit_xor(pair: Pair) -> Int
    ensures { result ≡ int pair.ty (of_bits pair.ty (λ k. differ (bit pair.left k) (bit pair.right k))) }
{
    from_pattern(
        pattern(pair.left, pair.ty) ^ pattern(pair.right, pair.ty),
        pair.ty,
    )
}

pub(crate) fn complement(a: Int) -> Int
    ensures { result ≡ int a.ty (of_bits a.ty (λ k. 1 - bit a.value k)) }
{
    let ones = (size(a.ty) - 1) as u64;
    from_pattern(ones - pattern(a.value, a.ty), a.ty)
}
