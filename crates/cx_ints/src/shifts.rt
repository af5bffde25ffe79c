//! Shifts.
ghost use Rattle.std.specs.Prelude.{◌≡◌, ◌<◌, ◌^◌, pos, ◌*ℤ◌, IfOk};
ghost use Rattle.cx_ints.specs.Ranges.{InWord};
ghost use Rattle.cx_ints.specs.Conversions.{reduce};
ghost use Rattle.cx_ints.specs.Bits.{floor_div};
ghost use Rattle.cx_ints.specs.Operations.{counted, on_ok};

use crate::conversions::reduce;
use crate::int::Int;
use crate::ranges::width;
use cx_base::{IntType, Rule};

/// The count, where it is from 0 to below the type's width.
fn shift_count(count: i128, ty: IntType) -> Result<u32, Rule>
    ensures value { result ≡ counted count ty }
    ensures small { IfOk result (λ n. n < 64) }
{
    if 0 <= count && count < i128::from(width(ty)) {
        Ok(count as u32)
    } else {
        Err(Rule::ShiftCount)
    }
}

fn scaled(value: i128, by: u32) -> i128
    requires word { InWord value }
    requires small { by < 64 }
    ensures { result ≡ value *ℤ pos (2 ^ by) }
{
    value * 2i128.pow(by)
}

/// The value times 2 to the count, modulo 2 to the width.
pub(crate) fn shift_left(a: Int, count: i128) -> Result<Int, Rule>
    requires { InWord a.value }
    ensures { result ≡ on_ok (counted count a.ty) a.ty (λ n. reduce a.ty (a.value *ℤ pos (2 ^ n))) }
{
    let by = shift_count(count, a.ty)?;
    Ok(Int {
        ty: a.ty,
        value: reduce(scaled(a.value, by), a.ty),
    })
}

/// The value divided by 2 to the count, rounded down.
pub(crate) fn shift_right(a: Int, count: i128) -> Result<Int, Rule>
    ensures { result ≡ on_ok (counted count a.ty) a.ty (λ n. floor_div a.value (2 ^ n)) }
{
    let by = shift_count(count, a.ty)?;
    Ok(Int {
        ty: a.ty,
        value: a.value >> by,
    })
}
