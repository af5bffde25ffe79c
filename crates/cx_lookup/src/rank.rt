ghost use Rattle.std.specs.Prelude.{◌≡◌};
ghost use Rattle.cx_lookup.specs.Ranks.{int_kind};

use cx_base::IntType;
use cx_ints::promote;

/// The rank of an implicit conversion ([over.ics.scs]), from the best to the worst.
#[derive(Clone, Copy, Debug, PartialEq, Eq)]
pub enum RankKind {
    Exact,
    Promotion,
    Conversion,
    /// By a constructor of the target's class ([over.ics.user]).
    User,
}

/// The rank of a conversion between integer types ([conv.prom], [conv.integral], [conv.bool]).
pub fn int_rank(from: IntType, to: IntType) -> RankKind
    ensures { result ≡ int_kind from to }
{
    if from == to {
        RankKind::Exact
    } else if promote(from) == to {
        RankKind::Promotion
    } else {
        RankKind::Conversion
    }
}
