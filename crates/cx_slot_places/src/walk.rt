//! Walks to a part of an object, and the steps that lead to a place ([basic.compound]).

ghost use Rattle.std.specs.Prelude.{◌≡◌, ℕ, ◌+◌, ◌*◌, ◌-◌, ◌/◌, ◌^◌, ◌<◌, ◌≤◌, List, length, slice_get};
ghost use Rattle.cx_type_defs.specs.declared.ids.Step.{Step as StepOf};
ghost use Rattle.cx_layout.specs.Described.{IsTable, columns_form};
ghost use Rattle.cx_layout.specs.Places.{IsPlace, Leads};
ghost use Rattle.cx_layout.specs.Walks.{IsIn, count_of, is_past_elements};
ghost use Rattle.cx_slot_places.specs.Walks.{CanStep, Starts, Trails, stepped};

use cx_layout::{Columns, Kind, Node, Place};
use cx_types::Step;

/// A step from a part to one of its own, and the first slot of that.
#[derive(Clone, Copy)]
pub(crate) struct Next {
    pub(crate) step: Step,
    pub(crate) start: u32,
}

/// What a walk to a part tells: the part's first slot, how many steps lead to it, and the one that was asked for, if there
/// are so many.
#[derive(Clone, Copy)]
pub(crate) struct Trail {
    pub(crate) start: u32,
    pub(crate) depth: u32,
    pub(crate) step: Option<Step>,
}

/// From a part with that first slot to the part of a node in which a slot lies.
pub(crate) fn step_on(row: Node, start: u32, slot: u32) -> Next
    requires { CanStep row start slot }
    ensures { result ≡ stepped row start slot }
{
    match row.under.step {
        Step::Elem(_) => {
            let index = (slot - start) / row.cells;
            Next {
                step: Step::Elem(index),
                start: start + index * row.cells,
            }
        }
        step => Next {
            step,
            start: start + row.under.offset,
        },
    }
}

/// The first slot of the part of a node in which a slot lies. It takes time and native stack by the depth of the node.
pub(crate) fn start_of(columns: &Columns, node: u32, slot: u32) -> u32
    requires { IsIn columns.now.nodes.items columns.now.parts.items (columns_form columns.now) node slot }
    ensures { Starts (columns_form columns.now) node slot result }
{
    if node == 0 {
        return 0;
    }
    let row = columns.node(node);
    let outer = start_of(columns, row.under.parent, slot);
    step_on(row, outer, slot).start
}

/// The walk to the part of a node in which a slot lies, that looks for step k.
fn trail_to(columns: &Columns, node: u32, slot: u32, k: u32) -> Trail
    requires { IsIn columns.now.nodes.items columns.now.parts.items (columns_form columns.now) node slot }
    ensures { Trails (columns_form columns.now) node slot k result }
{
    if node == 0 {
        return Trail {
            start: 0,
            depth: 0,
            step: None,
        };
    }
    let row = columns.node(node);
    let outer = trail_to(columns, row.under.parent, slot, k);
    let next = step_on(row, outer.start, slot);
    if outer.depth == k {
        return Trail {
            start: next.start,
            depth: outer.depth + 1,
            step: Some(next.step),
        };
    }
    Trail {
        start: next.start,
        depth: outer.depth + 1,
        step: outer.step,
    }
}

/// How many elements a node has.
pub(crate) fn count_of(kind: Kind) -> u32
    ensures { result ≡ count_of kind }
{
    match kind {
        Kind::Array(count) => count,
        _ => 0,
    }
}

/// Whether a place at this node is the one past the last element of an array.
fn is_past_elements(row: Node, at: Place) -> bool
    ensures { result ≡ is_past_elements row at }
{
    at.past
        && at.node > 0
        && match row.under.step {
            Step::Elem(_) => true,
            _ => false,
        }
}

/// Step k of the path to a place, from 0: past the last element of an array the last step is the array's length. It takes
/// time and native stack by the depth of the place.
pub fn step_at(columns: &Columns, at: Place, k: u32) -> Option<Step>
    requires table { IsTable columns.now }
    requires place { IsPlace (columns_form columns.now) at }
    ensures { (ss : List StepOf) → Leads (columns_form columns.now) ss at → result ≡ slice_get ss k }
{
    let row = columns.node(at.node);
    if is_past_elements(row, at) {
        let count = count_of(columns.node(row.under.parent).kind);
        let array = trail_to(columns, row.under.parent, at.slot - count * row.cells, k);
        if array.depth == k {
            return Some(Step::Elem(count));
        }
        return array.step;
    }
    trail_to(columns, at.node, at.slot, k).step
}
