//! The array that a place is in, and its index there ([expr.add]).

ghost use Rattle.std.specs.Prelude.{◌≡◌, ◌+◌, ◌^◌, ◌<◌, ◌≤◌, true, false, List, [], Some, option_and_then, ◌+ℤ◌, pos};
ghost use Rattle.cx_type_defs.specs.declared.ids.Step.{Step as StepOf};
ghost use Rattle.cx_state.specs.Places.{spot_of};
ghost use Rattle.cx_state.specs.Pointers.{index_within};
ghost use Rattle.cx_shapes.specs.Forms.{Small, form_of, steps_at};
ghost use Rattle.cx_records.specs.Parts.{row_count};
ghost use Rattle.cx_records.specs.Records.{is_past, marked};
ghost use Rattle.cx_record_pointers.specs.Seats.{IsSeat, element_index, ends_here, same_seat};

use cx_records::End;
use cx_shapes::{Shape, way_of};
use cx_types::Step;

/// The array that a place is in: the number of its part, how many elements it has, and the place's index there, from 0 up
/// to their number. A part that is no element counts as an array of one, which `many` tells.
#[derive(Clone, Copy, Drop)]
pub struct Seat {
    pub array: u64,
    pub many: bool,
    pub count: u32,
    pub index: u32,
}

/// Whether the places are in one array of one object.
pub fn same_seat(a: Seat, b: Seat) -> bool
    ensures { result ≡ same_seat a b }
{
    a.many == b.many && a.array == b.array
}

/// The index so many further on, which goes up to the number of elements; None elsewhere.
pub fn index_moved(seat: Seat, by: i128) -> Option<u32>
    requires { seat.index ≤ seat.count }
    ensures { result ≡ index_within seat.count (pos seat.index +ℤ by) }
{
    let back = i128::from(seat.index);
    let on = i128::from(seat.count) - back;
    if by < -back {
        return None;
    }
    if on < by {
        return None;
    }
    Some((back + by) as u32)
}

/// An element's index, where the step leads to the place itself.
fn element_index(step: Step, is_last: bool) -> Option<u32>
    ensures { result ≡ element_index step is_last }
{
    match step {
        Step::Elem(index) if is_last => Some(index),
        _ => None,
    }
}

fn count_of(shape: &Shape) -> u32
    ensures { result ≡ row_count (form_of shape.now) }
{
    match shape {
        Shape::Row(count, _) => *count,
        _ => 0,
    }
}

fn one_seat(array: u64, index: u32) -> Seat
    ensures { result ≡ record { array = array; many = false; count = 1; index = index } }
{
    Seat {
        array,
        many: false,
        count: 1,
        index,
    }
}

fn row_seat(shape: &Shape, array: u64, index: u32) -> Seat
    ensures { result ≡ record { array = array; many = true; count = row_count (form_of shape.now); index = index } }
{
    Seat {
        array,
        many: true,
        count: count_of(shape),
        index,
    }
}

/// The seat of a place at the shape itself.
fn first_seat(shape: &Shape, base: u64, end: End) -> Seat
    ensures { (ss : List StepOf) → marked (form_of shape.now) end [] ≡ Some ss → IsSeat (form_of shape.now) base (spot_of (is_past end) ss) result }
{
    match end {
        End::At => one_seat(base, 0),
        End::Past => one_seat(base, 1),
        End::Last => row_seat(shape, base, count_of(shape)),
    }
}

/// The seat of the place with a number, counted from a shape with number `base`.
pub fn seat_of(shape: &Shape, base: u64, rest: u64, end: End) -> Seat
    requires few { base + rest < 2 ^ 62 }
    requires small { Small (form_of shape.now) }
    ensures { (ss : List StepOf) → option_and_then (marked (form_of shape.now) end) (steps_at (form_of shape.now) rest) ≡ Some ss → IsSeat (form_of shape.now) base (spot_of (is_past end) ss) result }
{
    if rest == 0 {
        return first_seat(shape, base, end);
    }
    let Some(way) = way_of(shape, rest - 1) else {
        return one_seat(base, 0);
    };
    match element_index(way.step, ends_here(end, rest, way.from)) {
        Some(index) => row_seat(shape, base, index),
        None => seat_of(way.shape, base + way.from, rest - way.from, end),
    }
}

fn ends_here(end: End, rest: u64, from: u64) -> bool
    ensures { result ≡ ends_here end rest from }
{
    match end {
        End::Last => false,
        _ => rest == from,
    }
}
