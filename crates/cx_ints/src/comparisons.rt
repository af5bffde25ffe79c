//! Comparisons, and the values of `bool` that they give.
ghost use Rattle.std.specs.Prelude.{◌≡◌, int_le, int_lt};
ghost use Rattle.cx_base.specs.declared.int_type.IntType.TheVariants as type;
ghost use Rattle.cx_ints.specs.Conversions.{truth};
ghost use Rattle.cx_ints.specs.Operations.{equal, int};

use crate::int::Int;
use cx_base::IntType;

pub(crate) fn truth(holds: bool) -> Int
    ensures { result ≡ int type.Bool (truth holds) }
{
    Int {
        ty: IntType::Bool,
        value: if holds { 1 } else { 0 },
    }
}

pub(crate) fn is_equal(x: i128, y: i128) -> bool
    ensures { result ≡ equal x y }
{
    x <= y && y <= x
}

pub(crate) fn is_less(x: i128, y: i128) -> bool
    ensures { result ≡ int_lt x y }
{
    x < y
}

pub(crate) fn is_at_most(x: i128, y: i128) -> bool
    ensures { result ≡ int_le x y }
{
    x <= y
}
