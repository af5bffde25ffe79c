//! Sums, differences, products, quotients and remainders.
ghost use Rattle.std.specs.Prelude.{◌≡◌, ◌*◌, ◌%◌, ◌^◌, ◌≤◌, pos, ◌+ℤ◌, ◌-ℤ◌, ◌*ℤ◌, ◌≤ℤ◌, unsigned_abs};
ghost use Rattle.cx_ints.specs.Ranges.{Fits, InWord, is_signed, width};
ghost use Rattle.cx_ints.specs.Conversions.{reduce};
ghost use Rattle.cx_ints.specs.Operations.{delivered, on_ok, quotient};

use crate::conversions::reduce;
use crate::int::{Int, Pair};
use crate::ranges::{fits, is_signed, size};
use cx_base::{IntType, Rule};

/// The exact result as a value of the type: modulo 2 to the width for an unsigned type, in range for a signed one.
#[tactic(auto, unfolding(crate::specs::Operations::delivered))]
pub(crate) fn deliver(exact: i128, ty: IntType) -> Result<Int, Rule>
    ensures { result ≡ delivered ty exact }
{
    if !is_signed(ty) {
        Ok(Int {
            ty,
            value: reduce(exact, ty),
        })
    } else if fits(exact, ty) {
        Ok(Int { ty, value: exact })
    } else {
        Err(Rule::Overflow)
    }
}

pub(crate) fn add(pair: Pair) -> Result<Int, Rule>
    requires left { InWord pair.left }
    requires right { InWord pair.right }
    ensures { result ≡ delivered pair.ty (pair.left +ℤ pair.right) }
{
    deliver(pair.left + pair.right, pair.ty)
}

pub(crate) fn subtract(pair: Pair) -> Result<Int, Rule>
    requires left { InWord pair.left }
    requires right { InWord pair.right }
    ensures { result ≡ delivered pair.ty (pair.left -ℤ pair.right) }
{
    deliver(pair.left - pair.right, pair.ty)
}

pub(crate) fn multiply(pair: Pair) -> Result<Int, Rule>
    requires left { Fits pair.ty pair.left }
    requires right { Fits pair.ty pair.right }
    ensures { result ≡ delivered pair.ty (pair.left *ℤ pair.right) }
{
    if is_signed(pair.ty) {
        deliver(signed_product(pair.left, pair.right), pair.ty)
    } else {
        Ok(Int {
            ty: pair.ty,
            value: unsigned_product(pair.left as u64, pair.right as u64, pair.ty),
        })
    }
}

fn signed_product(x: i128, y: i128) -> i128
    requires left { unsigned_abs x ≤ 9223372036854775808 }
    requires right { unsigned_abs y ≤ 9223372036854775808 }
    ensures { result ≡ x *ℤ y }
{
    x * y
}

/// The product modulo 2 to the type's width.
fn unsigned_product(x: u64, y: u64, ty: IntType) -> i128
    ensures { result ≡ pos (x * y % 2 ^ width ty) }
{
    (u128::from(x) * u128::from(y) % size(ty) as u128) as i128
}

/// The quotient, cut towards zero, where the type has it.
fn divide_exactly(pair: Pair) -> Result<i128, Rule>
    requires left { InWord pair.left }
    requires right { InWord pair.right }
    ensures { result ≡ quotient pair.ty pair.left pair.right }
{
    if pair.right == 0 {
        return Err(Rule::DivideByZero);
    }
    let quotient = pair.left / pair.right;
    if fits(quotient, pair.ty) {
        Ok(quotient)
    } else {
        Err(Rule::Quotient)
    }
}

pub(crate) fn divide(pair: Pair) -> Result<Int, Rule>
    requires left { InWord pair.left }
    requires right { InWord pair.right }
    ensures { result ≡ on_ok (quotient pair.ty pair.left pair.right) pair.ty (λ q. q) }
{
    let value = divide_exactly(pair)?;
    Ok(Int { ty: pair.ty, value })
}

pub(crate) fn remainder(pair: Pair) -> Result<Int, Rule>
    requires left { InWord pair.left }
    requires right { InWord pair.right }
    ensures { result ≡ on_ok (quotient pair.ty pair.left pair.right) pair.ty (λ q. pair.left -ℤ q *ℤ pair.right) }
{
    divide_exactly(pair)?;
    Ok(Int {
        ty: pair.ty,
        value: pair.left % pair.right,
    })
}

pub(crate) fn negate(a: Int) -> Result<Int, Rule>
    requires { InWord a.value }
    ensures { result ≡ delivered a.ty (pos 0 -ℤ a.value) }
{
    deliver(-a.value, a.ty)
}
