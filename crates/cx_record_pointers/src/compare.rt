//! Comparing places ([expr.eq], [expr.rel], [expr.add]).

ghost use Rattle.std.specs.Prelude.{◌≡◌, pos, ◌-ℤ◌};
ghost use Rattle.cx_state.specs.Forms.{Knows};
ghost use Rattle.cx_state.specs.Pointers as pointers;
ghost use Rattle.cx_records.specs.Fits.{Fits};
ghost use Rattle.cx_records.specs.Records.{objects_of, forms_in, path_in};

use crate::known::{in_one, in_two_literals, is_dangling, is_past, meeting_at, seat_at};
use crate::meet::{comes_before, in_members, is_within};
use cx_base::Rule;
use cx_records::{Place, Records};
use cx_types::Types;

/// How many elements lie between two places ([expr.add]).
pub fn distance(store: &Records, types: &Types, a: Place, b: Place) -> Result<i64, Rule>
    requires fits { Fits types.now store.now.records.items store.now.live }
    requires known { Knows types.now (objects_of store.now.records.items) (path_in (forms_in store.now.records.items) a) }
    requires other { Knows types.now (objects_of store.now.records.items) (path_in (forms_in store.now.records.items) b) }
    ensures gives { result ≡ pointers.distance (objects_of store.now.records.items) (path_in (forms_in store.now.records.items) a) (path_in (forms_in store.now.records.items) b) }
{
    if is_dangling(store, types, a) {
        return Err(Rule::Dangling);
    }
    if is_dangling(store, types, b) {
        return Err(Rule::Dangling);
    }
    let x = seat_at(store, types, a);
    let y = seat_at(store, types, b);
    if in_one(store, a, x, b, y) {
        Ok(between(x.index, y.index))
    } else {
        Err(Rule::PointerDistance)
    }
}

fn between(a: u32, b: u32) -> i64
    ensures { result ≡ pos a -ℤ pos b }
{
    i64::from(a) - i64::from(b)
}

/// Whether two places are one ([expr.eq]).
pub fn equal(store: &Records, types: &Types, a: Place, b: Place) -> Result<bool, Rule>
    requires fits { Fits types.now store.now.records.items store.now.live }
    requires known { Knows types.now (objects_of store.now.records.items) (path_in (forms_in store.now.records.items) a) }
    requires other { Knows types.now (objects_of store.now.records.items) (path_in (forms_in store.now.records.items) b) }
    ensures gives { result ≡ pointers.equal types.now (objects_of store.now.records.items) (path_in (forms_in store.now.records.items) a) (path_in (forms_in store.now.records.items) b) }
{
    let x = seat_at(store, types, a);
    let y = seat_at(store, types, b);
    if in_one(store, a, x, b, y) {
        return Ok(x.index == y.index);
    }
    if is_past(a) {
        return Err(Rule::UnspecifiedCompare);
    }
    if is_past(b) {
        return Err(Rule::UnspecifiedCompare);
    }
    let meeting = meeting_at(store, types, a, b);
    if in_two_literals(store, types, a, b) {
        return Err(Rule::UnspecifiedCompare);
    }
    if is_within(meeting) {
        return Err(Rule::UnspecifiedCompare);
    }
    if in_members(meeting) {
        return Err(Rule::UnspecifiedCompare);
    }
    Ok(false)
}

/// Whether one place comes before the other ([expr.rel]).
pub fn less(store: &Records, types: &Types, a: Place, b: Place) -> Result<bool, Rule>
    requires fits { Fits types.now store.now.records.items store.now.live }
    requires known { Knows types.now (objects_of store.now.records.items) (path_in (forms_in store.now.records.items) a) }
    requires other { Knows types.now (objects_of store.now.records.items) (path_in (forms_in store.now.records.items) b) }
    ensures gives { result ≡ pointers.less types.now (objects_of store.now.records.items) (path_in (forms_in store.now.records.items) a) (path_in (forms_in store.now.records.items) b) }
{
    if is_dangling(store, types, a) {
        return Err(Rule::Dangling);
    }
    if is_dangling(store, types, b) {
        return Err(Rule::Dangling);
    }
    let x = seat_at(store, types, a);
    let y = seat_at(store, types, b);
    if in_one(store, a, x, b, y) {
        return Ok(x.index < y.index);
    }
    if is_past(a) {
        return Err(Rule::UnspecifiedCompare);
    }
    if is_past(b) {
        return Err(Rule::UnspecifiedCompare);
    }
    match comes_before(meeting_at(store, types, a, b)) {
        Some(answer) => Ok(answer),
        None => Err(Rule::UnspecifiedCompare),
    }
}
