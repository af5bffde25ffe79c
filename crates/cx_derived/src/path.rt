ghost use Rattle.std.specs.Prelude.{◌≡◌, ◌+◌, ◌-◌, ◌<◌, ◌≤◌, length, Some, IfOk, MatchOption};
ghost use Rattle.std.specs.List.{sum_by};
ghost use Rattle.cx_type_defs.specs.Tables.{base_of};
ghost use Rattle.cx_derived.specs.Ways.{led, bases_at, ways_within, ways_to};

use crate::walk::{MOST_LEVELS, ways_below};
use cx_base::{List, Memory};
use cx_type_defs::ClassId;
use cx_types::Types;
use std::alloc::Global;

/// The first direct base from which fewer than so many steps lead to the base, and its number.
fn step_to(types: &Types, class: ClassId, base: ClassId, levels: u32) -> Option<(u32, ClassId)>
    requires { class.0 < length types.now.classes }
    ensures { MatchOption result (sum_by (ways_within types.now base levels) (bases_at types.now class) ≡ 0) (λ r. (base_of types.now class r.0 ≡ Some r.1) × (r.1.0 < length types.now.classes) × (1 ≤ ways_within types.now base levels r.1)) }
{
    if !types.complete(class) {
        return None;
    }
    types.sound();
    for i in 0..types.bases(class) {
        let next = types.base_at(class, i);
        if ways_below(types, next, base, levels) > 0 {
            return Some((i, next));
        }
    }
    None
}

/// The steps of a way from a class to a base of it: at each class the number of the direct base that is taken, none
/// where both are the same class. Where there are several ways it is the one that takes the earliest bases.
pub fn steps(
    alloc: Global,
    types: &Types,
    class: ClassId,
    base: ClassId,
) -> Result<List<u32>, Memory>
    requires known { class.0 < length types.now.classes }
    requires derived { 1 ≤ ways_to types.now class base }
    ensures { IfOk result (λ steps. led types.now class steps ≡ Some base) }
{
    let mut steps = List::new(alloc);
    let mut at = class;
    for taken in 0..MOST_LEVELS {
        if at.0 == base.0 {
            return Ok(steps);
        }
        match step_to(types, at, base, MOST_LEVELS - 1 - taken) {
            None => return Ok(steps),
            Some((i, next)) => {
                steps.push(i)?;
                at = next;
            }
        }
    }
    Ok(steps)
}
