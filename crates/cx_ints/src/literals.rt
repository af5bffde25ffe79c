//! The types of integer literals.
ghost use Rattle.std.specs.Prelude.{◌≡◌, pos, IfSome};
ghost use Rattle.cx_ints.specs.Ranges.{Fits};
ghost use Rattle.cx_ints.specs.Literals.{has_u, is_listed, literal_type, lowest};

use crate::conversions::rank;
use crate::ranges::{fits, is_signed};
use cx_base::IntType;

/// What stands behind a literal's digits, in either letter case.
#[derive(Clone, Copy, Debug, PartialEq, Eq)]
pub enum Suffix {
    None,
    U,
    L,
    UL,
    LL,
    ULL,
}

/// The types that a literal may have, in the order in which they are tried.
const LITERAL_TYPES: [IntType; 6] = [
    IntType::Int,
    IntType::UInt,
    IntType::Long,
    IntType::ULong,
    IntType::LongLong,
    IntType::ULongLong,
];

#[tactic(auto, unfolding(crate::specs::Literals::has_u))]
fn has_u(suffix: Suffix) -> bool
    ensures { result ≡ has_u suffix }
{
    match suffix {
        Suffix::U | Suffix::UL | Suffix::ULL => true,
        Suffix::None | Suffix::L | Suffix::LL => false,
    }
}

/// The first type of the list that the suffix lets stand.
#[tactic(auto, unfolding(crate::specs::Literals::lowest))]
fn lowest(suffix: Suffix) -> IntType
    ensures { result ≡ lowest suffix }
{
    match suffix {
        Suffix::None | Suffix::U => IntType::Int,
        Suffix::L | Suffix::UL => IntType::Long,
        Suffix::LL | Suffix::ULL => IntType::LongLong,
    }
}

#[tactic(auto, unfolding(crate::specs::Literals::is_listed))]
fn is_listed(decimal: bool, suffix: Suffix, ty: IntType) -> bool
    ensures { result ≡ is_listed decimal suffix ty }
{
    let unsigned = has_u(suffix);
    let signed = is_signed(ty);
    !(unsigned && signed)
        && (!(decimal && !unsigned && !signed) && rank(lowest(suffix)) <= rank(ty))
}

/// The type of an integer literal ([lex.icon]): the first that has the value of int, unsigned int, long, unsigned long,
/// long long and unsigned long long, without the signed ones behind a `u`, without the unsigned ones for a decimal
/// literal without `u`, and from long or long long on for `l` or `ll`. None where no type of this list has the value.
pub fn literal_type(value: u64, decimal: bool, suffix: Suffix) -> Option<IntType>
    ensures value { result ≡ literal_type value decimal suffix }
    ensures in_range { IfSome result (λ ty. Fits ty (pos value)) }
{
    first_listed(value, decimal, suffix)
}

#[tactic(auto, unfolding(crate::specs::Literals::literal_type, crate::specs::Literals::literal_types))]
fn first_listed(value: u64, decimal: bool, suffix: Suffix) -> Option<IntType>
    ensures { result ≡ literal_type value decimal suffix }
{
    LITERAL_TYPES.iter().copied().find(|ty| is_listed(decimal, suffix, *ty)
        && fits(i128::from(value), *ty))
}
