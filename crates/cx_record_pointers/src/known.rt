//! What is told of known places.

ghost use Rattle.std.specs.Prelude.{◌≡◌, not};
ghost use Rattle.cx_type_defs.specs.Tables.{Tables};
ghost use Rattle.cx_state.specs.Forms.{Knows};
ghost use Rattle.cx_state.specs.Pointers as pointers;
ghost use Rattle.cx_records.specs.Fits.{Fits};
ghost use Rattle.cx_records.specs.Records as seen;
ghost use Rattle.cx_records.specs.Records.{objects_of, forms_in, path_in};
ghost use Rattle.cx_records.specs.declared.place.End.TheVariants as EndOf;
ghost use Rattle.cx_record_pointers.specs.Meetings.{Met};
ghost use Rattle.cx_record_pointers.specs.Seats.{IsSeatAt};

use crate::meet::{Meeting, part_ways};
use crate::seat::{Seat, same_seat, seat_of};
use cx_records::{End, Kind, Place, Records};
use cx_types::Types;

/// The array that a place is in.
pub fn seat_at(store: &Records, _types: &Types, at: Place) -> Seat
    requires fits { Fits _types.now store.now.records.items store.now.live }
    requires known { Knows _types.now (objects_of store.now.records.items) (path_in (forms_in store.now.records.items) at) }
    ensures { IsSeatAt store.now.records.items at result }
{
    seat_of(&store.record(at).shape, 0, at.part, at.end)
}

/// Whether both places are in one array.
pub fn in_one(_store: &Records, a: Place, x: Seat, b: Place, y: Seat) -> bool
    requires seat { IsSeatAt _store.now.records.items a x }
    requires other { IsSeatAt _store.now.records.items b y }
    ensures { result ≡ pointers.same_array (path_in (forms_in _store.now.records.items) a) (path_in (forms_in _store.now.records.items) b) }
{
    a.object == b.object && same_seat(x, y)
}

/// Whether the object is released.
pub fn is_dangling(store: &Records, _types: &Types, at: Place) -> bool
    requires { Knows _types.now (objects_of store.now.records.items) (path_in (forms_in store.now.records.items) at) }
    ensures { result ≡ pointers.is_dangling (objects_of store.now.records.items) (path_in (forms_in store.now.records.items) at) }
{
    store.record(at).released
}

/// Whether the place is past an end.
pub fn is_past(at: Place) -> bool
    ensures { result ≡ seen.is_past at.end }
{
    !matches!(at.end, End::At)
}

/// Whether the places are in two string literals.
pub fn in_two_literals(store: &Records, types: &Types, a: Place, b: Place) -> bool
    requires known { Knows types.now (objects_of store.now.records.items) (path_in (forms_in store.now.records.items) a) }
    requires other { Knows types.now (objects_of store.now.records.items) (path_in (forms_in store.now.records.items) b) }
    ensures { result ≡ pointers.in_two_literals (objects_of store.now.records.items) (path_in (forms_in store.now.records.items) a) (path_in (forms_in store.now.records.items) b) }
{
    a.object != b.object && in_literal(store, types, a) && in_literal(store, types, b)
}

fn in_literal(store: &Records, _types: &Types, at: Place) -> bool
    requires { Knows _types.now (objects_of store.now.records.items) (path_in (forms_in store.now.records.items) at) }
    ensures { result ≡ pointers.in_literal (objects_of store.now.records.items) (path_in (forms_in store.now.records.items) at) }
{
    matches!(store.record(at).kind, Kind::Literal)
}

/// How two parts lie to each other.
pub fn meeting_at(store: &Records, _types: &Types, a: Place, b: Place) -> Meeting
    requires fits { Fits _types.now store.now.records.items store.now.live }
    requires known { Knows _types.now (objects_of store.now.records.items) (path_in (forms_in store.now.records.items) a) }
    requires other { Knows _types.now (objects_of store.now.records.items) (path_in (forms_in store.now.records.items) b) }
    requires here { a.end ≡ EndOf.At }
    requires here_too { b.end ≡ EndOf.At }
    ensures { Met _types.now (objects_of store.now.records.items) (path_in (forms_in store.now.records.items) a) (path_in (forms_in store.now.records.items) b) result }
{
    if a.object == b.object {
        part_ways(&store.record(a).shape, a.part, b.part)
    } else {
        Meeting::Elsewhere
    }
}
