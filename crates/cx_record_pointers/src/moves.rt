//! Moving places within their arrays ([expr.add]).

ghost use Rattle.std.specs.Prelude.{◌≡◌, ◌≤◌, true, List, [], ◌∷◌, ◌++◌, Some, IfOk};
ghost use Rattle.cx_type_defs.specs.declared.ids.Step.{Step as StepOf};
ghost use Rattle.cx_type_defs.specs.declared.ids.Step.TheVariants as step;
ghost use Rattle.cx_state.specs.Forms.{Knows};
ghost use Rattle.cx_state.specs.Places.{Spot};
ghost use Rattle.cx_state.specs.Pointers as pointers;
ghost use Rattle.cx_store.specs.Stores.{result_seen};
ghost use Rattle.cx_shapes.specs.Forms.{Small, form_of, steps_at};
ghost use Rattle.cx_records.specs.Fits.{Fits};
ghost use Rattle.cx_records.specs.Records.{objects_of, forms_in, path_in};
ghost use Rattle.cx_record_pointers.specs.Seats.{IsSeat, IsSeatAt, IsPlaced, HasElement, one_place};

use crate::known::{is_dangling, seat_at};
use crate::seat::{Seat, index_moved};
use cx_base::Rule;
use cx_records::{End, Place, Records};
use cx_shapes::{Shape, part_at, seek};
use cx_types::{Step, Types};

/// The place so many elements on.
pub fn add(store: &Records, types: &Types, at: Place, by: i128) -> Result<Place, Rule>
    requires fits { Fits types.now store.now.records.items store.now.live }
    requires known { Knows types.now (objects_of store.now.records.items) (path_in (forms_in store.now.records.items) at) }
    ensures gives { result_seen (path_in (forms_in store.now.records.items)) result ≡ pointers.add types.now (objects_of store.now.records.items) (path_in (forms_in store.now.records.items) at) by }
    ensures known { IfOk result (λ p. Knows types.now (objects_of store.now.records.items) (path_in (forms_in store.now.records.items) p)) }
{
    if is_dangling(store, types, at) {
        return Err(Rule::Dangling);
    }
    let seat = seat_at(store, types, at);
    match index_moved(seat, by) {
        None => Err(Rule::PointerRange),
        Some(index) => Ok(place_at(store, types, at, seat, index)),
    }
}

/// The place with an index in the array that a place is in.
fn place_at(store: &Records, types: &Types, at: Place, seat: Seat, index: u32) -> Place
    requires fits { Fits types.now store.now.records.items store.now.live }
    requires known { Knows types.now (objects_of store.now.records.items) (path_in (forms_in store.now.records.items) at) }
    requires seat { IsSeatAt store.now.records.items at seat }
    requires within { index ≤ seat.count }
    ensures { path_in (forms_in store.now.records.items) result ≡ pointers.at_index (path_in (forms_in store.now.records.items) at) (pointers.count_at types.now (objects_of store.now.records.items) (path_in (forms_in store.now.records.items) at)) index }
{
    place_in(&store.record(at).shape, at.object, seat, index)
}

/// The place with an index in an array of a shape.
fn place_in(shape: &Shape, object: u32, seat: Seat, index: u32) -> Place
    requires small { Small (form_of shape.now) }
    requires seat { (x : Spot) × IsSeat (form_of shape.now) 0 x seat }
    requires within { index ≤ seat.count }
    ensures { (x : Spot) → IsSeat (form_of shape.now) 0 x seat → IsPlaced (form_of shape.now) object x seat.count index result }
{
    if seat.many {
        place_in_row(shape, object, seat, index)
    } else {
        place_at_one(object, seat.array, index)
    }
}

/// A part that is no element, or the place past it.
fn place_at_one(object: u32, part: u64, index: u32) -> Place
    ensures { result ≡ one_place object part index }
{
    if index == 0 {
        Place {
            object,
            part,
            end: End::At,
        }
    } else {
        Place {
            object,
            part,
            end: End::Past,
        }
    }
}

fn place_in_row(shape: &Shape, object: u32, seat: Seat, index: u32) -> Place
    requires small { Small (form_of shape.now) }
    requires many { seat.many ≡ true }
    requires seat { (x : Spot) × IsSeat (form_of shape.now) 0 x seat }
    requires within { index ≤ seat.count }
    ensures { (x : Spot) → IsSeat (form_of shape.now) 0 x seat → IsPlaced (form_of shape.now) object x seat.count index result }
{
    if index == seat.count {
        Place {
            object,
            part: seat.array,
            end: End::Last,
        }
    } else {
        Place {
            object,
            part: element_number(shape, seat.array, index),
            end: End::At,
        }
    }
}

/// The number of an element of the array with a number.
fn element_number(shape: &Shape, array: u64, index: u32) -> u64
    requires small { Small (form_of shape.now) }
    requires there { HasElement (form_of shape.now) array index }
    ensures { (ss : List StepOf) → steps_at (form_of shape.now) array ≡ Some ss → steps_at (form_of shape.now) result ≡ Some (ss ++ step.Elem index ∷ []) }
{
    match seek(shape, array) {
        None => unreachable!(),
        Some(row) => match part_at(row, Step::Elem(index)) {
            None => unreachable!(),
            Some(piece) => array + piece.from,
        },
    }
}
