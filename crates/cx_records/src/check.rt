//! Which rule an access breaks ([basic.life], [class.union], [expr.const]).

ghost use Rattle.std.specs.Prelude.{◌≡◌, ◌&&◌, ◌||◌, not, ℕ, ◌+◌, ◌^◌, ◌<◌, length, List, Option, Some, None, slice_get};
ghost use Rattle.cx_shapes.specs.Forms.{Form, Small, form_of, steps_at};
ghost use Rattle.cx_state.specs.Conditions.{is_opaque, is_here};
ghost use Rattle.cx_state.specs.Forms.{Knows};
ghost use Rattle.cx_records.specs.Records.{objects_of, forms_in, cells_of, path_in, is_past};
ghost use Rattle.cx_records.specs.Fits.{Fits};
ghost use Rattle.cx_records.specs.Checks.{StandsAt, IsCondition, first};

use crate::place::{End, Place};
use crate::store::Records;
use crate::walk::{Standing, both, dead_at, either, walk};
use cx_base::Rule;
use cx_state::Birth;
use cx_types::Types;

/// The first rule whose condition holds.
pub fn first_broken(tests: &[(bool, Rule)]) -> Option<Rule>
    ensures { result ≡ first tests.now }
{
    match tests.split_first() {
        None => None,
        Some(((holds, rule), rest)) => {
            if *holds {
                Some(*rule)
            } else {
                first_broken(rest)
            }
        }
    }
}

/// What is so at a place: its object is released; it is past an end; the object is opaque, or wasn't made here; a union
/// on the way has another active member; a class on the way, or there too, isn't alive; the part is there.
#[derive(Clone, Copy, Drop)]
pub struct Condition {
    pub released: bool,
    pub past: bool,
    pub opaque: bool,
    pub outside: bool,
    pub inactive: bool,
    pub dead: bool,
    pub lifeless: bool,
    pub there: bool,
}

fn is_opaque(birth: Birth) -> bool
    ensures { result ≡ is_opaque birth }
{
    matches!(birth, Birth::Opaque)
}

fn is_outside(birth: Birth) -> bool
    ensures { result ≡ not (is_here birth) }
{
    !matches!(birth, Birth::Here)
}

fn is_past(end: End) -> bool
    ensures { result ≡ is_past end }
{
    !matches!(end, End::At)
}

/// Whether the first is so and the second isn't.
pub fn without(a: bool, b: bool) -> bool
    ensures { result ≡ (not b && a) }
{
    a && !b
}

impl Records {
    /// What stands at a known place.
    pub fn found(&self, _types: &Types, at: Place) -> Standing<'_>
        requires fits { Fits _types.now self.now.records.items self.now.live }
        requires known { Knows _types.now (objects_of self.now.records.items) (path_in (forms_in self.now.records.items) at) }
        ensures { StandsAt self.now.records.items at (form_of result.shape.now) result.there result.dead }
    {
        let record = self.record(at);
        match walk(&record.shape, &record.contents, 0, at.part) {
            Some(standing) => standing,
            None => unreachable!(),
        }
    }

    /// What is so at a known place.
    pub fn condition(&self, types: &Types, at: Place) -> Condition
        requires fits { Fits types.now self.now.records.items self.now.live }
        requires known { Knows types.now (objects_of self.now.records.items) (path_in (forms_in self.now.records.items) at) }
        ensures { IsCondition self.now.records.items at result }
    {
        let record = self.record(at);
        let standing = self.found(types, at);
        let opaque = is_opaque(record.birth);
        let ended = both(
            standing.there,
            dead_at(standing.shape, record.contents.phase(at.part)),
        );
        Condition {
            released: record.released,
            past: is_past(at.end),
            opaque,
            outside: is_outside(record.birth),
            inactive: without(!standing.there, opaque),
            dead: without(standing.dead, opaque),
            lifeless: without(either(standing.dead, ended), opaque),
            there: standing.there,
        }
    }
}
