//! The arrays that places are in: moving within them, and distances ([expr.add]).

ghost use Rattle.std.specs.Prelude.{◌≡◌, ℕ, ◌+◌, ◌*◌, ◌-◌, ◌/◌, ◌^◌, ◌<◌, ◌≤◌, List, length, pos, ◌+ℤ◌, ◌-ℤ◌};
ghost use Rattle.cx_type_defs.specs.declared.ids.Step.{Step as StepOf};
ghost use Rattle.cx_state.specs.Places.{spot};
ghost use Rattle.cx_state.specs.Pointers.{index_within};
ghost use Rattle.cx_layout.specs.Described.{IsTable, columns_form};
ghost use Rattle.cx_layout.specs.Places.{IsPlace, Leads};
ghost use Rattle.cx_layout.specs.Paths.{SameAnswer};
ghost use Rattle.cx_layout.specs.Walks.{is_element};
ghost use Rattle.cx_slot_places.specs.Pointers.{added, distance_of, path_to};
ghost use Rattle.cx_slot_places.specs.Walks.{IsSeat, same_seat};

use crate::walk::{count_of, start_of};
use cx_base::Rule;
use cx_layout::{Columns, Place};
use cx_types::Step;

/// The array that a place is in: its node and first slot, how many elements it has and how many slots lie from one to the
/// next, and the place's index, from 0 up to their number. A part that is no element counts as an array of one.
#[derive(Clone, Copy)]
pub(crate) struct Seat {
    pub(crate) node: u32,
    pub(crate) start: u32,
    pub(crate) many: bool,
    pub(crate) count: u32,
    pub(crate) stride: u32,
    pub(crate) index: u32,
}

fn is_element(step: Step) -> bool
    ensures { result ≡ is_element step }
{
    match step {
        Step::Elem(_) => true,
        _ => false,
    }
}

/// The array that a place is in. It takes time and native stack by the depth of the place.
pub(crate) fn seat_at(columns: &Columns, at: Place) -> Seat
    requires table { IsTable columns.now }
    requires place { IsPlace (columns_form columns.now) at }
    ensures { (ss : List StepOf) → Leads (columns_form columns.now) ss at → IsSeat (columns_form columns.now) at (spot (path_to at ss)) result }
{
    let row = columns.node(at.node);
    if at.node == 0 || !is_element(row.under.step) {
        return Seat {
            node: at.node,
            start: at.slot,
            many: false,
            count: 1,
            stride: 0,
            index: u32::from(at.past),
        };
    }
    let node = row.under.parent;
    let count = count_of(columns.node(node).kind);
    if at.past {
        return Seat {
            node,
            start: at.slot - count * row.cells,
            many: true,
            count,
            stride: row.cells,
            index: count,
        };
    }
    let start = start_of(columns, node, at.slot);
    Seat {
        node,
        start,
        many: true,
        count,
        stride: row.cells,
        index: (at.slot - start) / row.cells,
    }
}

/// Whether the places are in one array of their object.
pub(crate) fn same_seat(a: Seat, b: Seat) -> bool
    ensures { result ≡ same_seat a b }
{
    a.many == b.many && a.node == b.node && a.start == b.start
}

/// The index so many further on, which goes up to the number of elements; None elsewhere.
fn index_moved(seat: Seat, by: i128) -> Option<u32>
    requires { seat.index ≤ seat.count }
    ensures { result ≡ index_within seat.count (pos seat.index +ℤ by) }
{
    let back = i128::from(seat.index);
    let on = i128::from(seat.count) - back;
    if by < -back {
        return None;
    }
    if on < by {
        return None;
    }
    Some((back + by) as u32)
}

/// The place so many elements on ([expr.add]): exactly where that is none of the array and not its end, `PointerRange`. It
/// takes time and native stack by the depth of the place.
pub fn add_at(columns: &Columns, at: Place, by: i128) -> Result<Place, Rule>
    requires table { IsTable columns.now }
    requires place { IsPlace (columns_form columns.now) at }
    ensures { (ss : List StepOf) → Leads (columns_form columns.now) ss at → SameAnswer (columns_form columns.now) result (added (columns_form columns.now) (path_to at ss) by) }
{
    let seat = seat_at(columns, at);
    match index_moved(seat, by) {
        None => Err(Rule::PointerRange),
        Some(index) => Ok(Place {
            block: at.block,
            slot: seat.start + index * seat.stride,
            node: at.node,
            past: index == seat.count,
        }),
    }
}

fn between(a: u32, b: u32) -> i64
    ensures { result ≡ pos a -ℤ pos b }
{
    i64::from(a) - i64::from(b)
}

/// How many elements lie between two places of one object ([expr.add]): exactly where they are in two arrays,
/// `PointerDistance`. It takes time and native stack by their depth.
pub fn distance_at(columns: &Columns, a: Place, b: Place) -> Result<i64, Rule>
    requires table { IsTable columns.now }
    requires place { IsPlace (columns_form columns.now) a }
    requires other { IsPlace (columns_form columns.now) b }
    requires one { a.block ≡ b.block }
    ensures { (ss us : List StepOf) → Leads (columns_form columns.now) ss a → Leads (columns_form columns.now) us b → result ≡ distance_of (path_to a ss) (path_to b us) }
{
    let x = seat_at(columns, a);
    let y = seat_at(columns, b);
    if same_seat(x, y) {
        Ok(between(x.index, y.index))
    } else {
        Err(Rule::PointerDistance)
    }
}
