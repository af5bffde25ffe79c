//! Where the ways to two parts of an object part ([expr.rel], [expr.eq]).

ghost use Rattle.std.specs.Prelude.{◌≡◌, ℕ, ◌+◌, ◌*◌, ◌-◌, ◌/◌, ◌^◌, ◌<◌, ◌≤◌, length};
ghost use Rattle.cx_state.specs.Objects.{same_step};
ghost use Rattle.cx_layout.specs.Described.{columns_form};
ghost use Rattle.cx_layout.specs.Walks.{IsIn};
ghost use Rattle.cx_slot_places.specs.Walks.{CanGoOn, Meets, both_on, gone_on, is_union_kind, turned};

use crate::walk::step_on;
use cx_layout::{Columns, Kind, Node};
use cx_types::Step;

/// Where two ways part: whether that is in a union, and the steps by which they go on.
#[derive(Clone, Copy)]
pub(crate) struct Fork {
    pub(crate) in_union: bool,
    pub(crate) left: Step,
    pub(crate) right: Step,
}

/// How two parts lie to each other.
#[derive(Clone, Copy)]
pub(crate) enum Meeting {
    /// They are one part, with that first slot.
    Same(u32),
    /// The first is within the second, to which its way goes on by that step.
    Inner(Step),
    /// The second is within the first, to which its way goes on by that step.
    Outer(Step),
    /// They are in two parts of one.
    Apart(Fork),
}

/// Whether two steps are one.
fn same_step(a: Step, b: Step) -> bool
    ensures { result ≡ same_step a b }
{
    match (a, b) {
        (Step::Base(i), Step::Base(j)) => i == j,
        (Step::Field(i), Step::Field(j)) => i == j,
        (Step::Elem(i), Step::Elem(j)) => i == j,
        _ => false,
    }
}

fn is_union(kind: Kind) -> bool
    ensures { result ≡ is_union_kind kind }
{
    match kind {
        Kind::Class(parts) => parts.is_union,
        _ => false,
    }
}

/// How two parts lie to each other, seen from the other one.
fn turned(meeting: Meeting) -> Meeting
    ensures { result ≡ turned meeting }
{
    match meeting {
        Meeting::Same(start) => Meeting::Same(start),
        Meeting::Inner(step) => Meeting::Outer(step),
        Meeting::Outer(step) => Meeting::Inner(step),
        Meeting::Apart(fork) => Meeting::Apart(Fork {
            in_union: fork.in_union,
            left: fork.right,
            right: fork.left,
        }),
    }
}

/// The first way goes on by a step more, to a node in which a slot lies.
fn gone_on(above: Kind, row: Node, meeting: Meeting, slot: u32) -> Meeting
    requires { CanGoOn row meeting slot }
    ensures { result ≡ gone_on above row meeting slot }
{
    match meeting {
        Meeting::Same(start) => Meeting::Inner(step_on(row, start, slot).step),
        Meeting::Outer(step) => Meeting::Apart(Fork {
            in_union: is_union(above),
            left: row.under.step,
            right: step,
        }),
        other => other,
    }
}

/// Both ways go on by a step more, to parts of one node.
fn both_on(above: Kind, row: Node, meeting: Meeting, slot: u32, other: u32) -> Meeting
    requires first { CanGoOn row meeting slot }
    requires second { CanGoOn row meeting other }
    ensures { result ≡ both_on above row meeting slot other }
{
    match meeting {
        Meeting::Same(start) => {
            let left = step_on(row, start, slot);
            let right = step_on(row, start, other);
            if same_step(left.step, right.step) {
                return Meeting::Same(left.start);
            }
            Meeting::Apart(Fork {
                in_union: is_union(above),
                left: left.step,
                right: right.step,
            })
        }
        other => other,
    }
}

/// How the parts of two nodes in which two slots lie lie to each other. It takes time and native stack by their depth.
pub(crate) fn part_ways(columns: &Columns, a: u32, slot: u32, b: u32, other: u32) -> Meeting
    requires first { IsIn columns.now.nodes.items columns.now.parts.items (columns_form columns.now) a slot }
    requires second { IsIn columns.now.nodes.items columns.now.parts.items (columns_form columns.now) b other }
    ensures { Meets (columns_form columns.now) a slot b other result }
{
    if a < b {
        let row = columns.node(b);
        let outer = part_ways(columns, a, slot, row.under.parent, other);
        let above = columns.node(row.under.parent).kind;
        return turned(gone_on(above, row, turned(outer), other));
    }
    if a == 0 {
        return Meeting::Same(0);
    }
    let row = columns.node(a);
    let above = columns.node(row.under.parent).kind;
    if b < a {
        let outer = part_ways(columns, row.under.parent, slot, b, other);
        return gone_on(above, row, outer, slot);
    }
    let outer = part_ways(columns, row.under.parent, slot, row.under.parent, other);
    both_on(above, row, outer, slot, other)
}
