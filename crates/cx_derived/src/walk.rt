ghost use Rattle.std.specs.Prelude.{◌≡◌, ◌<◌, length, min};
ghost use Rattle.cx_derived.specs.Ways.{ways_within, ways_to, as_ways};

use cx_type_defs::ClassId;
use cx_types::Types;

/// By how many ways a class is derived from a base.
#[derive(Clone, Copy, Debug, PartialEq, Eq)]
pub enum Ways {
    /// It isn't derived from it, and isn't the same class.
    None,
    /// It is the same class, or derived from it by one way.
    One,
    /// It is derived from it by more ways than one: the base is ambiguous.
    Several,
}

/// A type has no more levels.
pub const MOST_LEVELS: u32 = 512;

/// The ways of fewer than so many steps, 2 for more than one.
pub fn ways_below(types: &Types, class: ClassId, base: ClassId, levels: u32) -> u32
    requires { class.0 < length types.now.classes }
    ensures { result ≡ min (ways_within types.now base levels class) 2 }
{
    if levels == 0 {
        return 0;
    }
    let here = u32::from(class.0 == base.0);
    if !types.complete(class) {
        return here;
    }
    types.sound();
    let mut total = here;
    for i in 0..types.bases(class) {
        let next = types.base_at(class, i);
        total = (total + ways_below(types, next, base, levels - 1)).min(2);
        if total == 2 {
            return 2;
        }
    }
    total
}

/// By how many ways the class leads to the base: none where it isn't derived from it, one where it is the same class.
pub fn derived_by(types: &Types, class: ClassId, base: ClassId) -> Ways
    requires { class.0 < length types.now.classes }
    ensures { result ≡ as_ways (ways_to types.now class base) }
{
    let count = ways_below(types, class, base, MOST_LEVELS);
    if count == 0 {
        Ways::None
    } else if count == 1 {
        Ways::One
    } else {
        Ways::Several
    }
}
