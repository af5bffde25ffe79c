//! Where the ways to two parts of an object part ([expr.rel], [expr.eq]).

ghost use Rattle.std.specs.Prelude.{◌≡◌, ◌^◌, ◌<◌, List, Some};
ghost use Rattle.cx_type_defs.specs.declared.ids.Step.{Step as StepOf};
ghost use Rattle.cx_state.specs.Objects.{same_step};
ghost use Rattle.cx_shapes.specs.Forms.{Small, form_of, steps_at};
ghost use Rattle.cx_record_pointers.specs.Meetings.{is_union, meeting_of, ends_of, before_of, in_members, is_within};

use cx_shapes::{Shape, way_of};
use cx_types::Step;

/// How two parts lie to each other.
#[derive(Clone, Copy, Drop)]
pub enum Meeting {
    /// They are of two objects.
    Elsewhere,
    /// They are one part.
    Same,
    /// One is within the other.
    Within,
    /// They are in two parts of one, to which these steps lead; and whether that one is a union.
    Apart(bool, Step, Step),
}

/// Whether two steps are one.
pub fn same_step(a: Step, b: Step) -> bool
    ensures { result ≡ same_step a b }
{
    match (a, b) {
        (Step::Base(i), Step::Base(j)) => i == j,
        (Step::Field(i), Step::Field(j)) => i == j,
        (Step::Elem(i), Step::Elem(j)) => i == j,
        _ => false,
    }
}

fn is_union(shape: &Shape) -> bool
    ensures { result ≡ is_union (form_of shape.now) }
{
    matches!(shape, Shape::Union(..))
}

/// How the parts with two numbers lie to each other.
pub fn part_ways(shape: &Shape, a: u64, b: u64) -> Meeting
    requires few { a < 2 ^ 62 }
    requires few_too { b < 2 ^ 62 }
    requires small { Small (form_of shape.now) }
    ensures { (ss us : List StepOf) → steps_at (form_of shape.now) a ≡ Some ss → steps_at (form_of shape.now) b ≡ Some us → result ≡ meeting_of (form_of shape.now) ss us }
{
    if a == 0 || b == 0 {
        return one_ends(a, b);
    }
    let Some(left) = way_of(shape, a - 1) else {
        return Meeting::Same;
    };
    let Some(right) = way_of(shape, b - 1) else {
        return Meeting::Same;
    };
    if same_step(left.step, right.step) {
        part_ways(left.shape, a - left.from, b - right.from)
    } else {
        Meeting::Apart(is_union(shape), left.step, right.step)
    }
}

fn one_ends(a: u64, b: u64) -> Meeting
    ensures { result ≡ ends_of a b }
{
    if a == b {
        Meeting::Same
    } else {
        Meeting::Within
    }
}

/// Whether the first of two parts comes before the other: elements of an array by index, members of a class that isn't a
/// union by declaration ([expr.rel]).
pub fn comes_before(meeting: Meeting) -> Option<bool>
    ensures { result ≡ before_of meeting }
{
    match meeting {
        Meeting::Apart(_, Step::Elem(i), Step::Elem(j)) => Some(i < j),
        Meeting::Apart(false, Step::Field(i), Step::Field(j)) => Some(i < j),
        _ => None,
    }
}

/// Whether two parts are in two members of one union.
pub fn in_members(meeting: Meeting) -> bool
    ensures { result ≡ in_members meeting }
{
    matches!(
        meeting,
        Meeting::Apart(true, Step::Field(_), Step::Field(_))
    )
}

/// Whether one of two parts is within the other.
pub fn is_within(meeting: Meeting) -> bool
    ensures { result ≡ is_within meeting }
{
    matches!(meeting, Meeting::Within)
}
