//! The way to a part of an object.

ghost use Rattle.std.specs.Prelude.{◌≡◌, ℕ, ◌+◌, ◌*◌, ◌-◌, ◌/◌, ◌^◌, ◌<◌, ◌≤◌, length, slice_get, Some};
ghost use Rattle.cx_layout.specs.Forms.{cells};
ghost use Rattle.cx_layout.specs.Described.{columns_form};
ghost use Rattle.cx_layout.specs.Walks.{IsIn};
ghost use Rattle.cx_slot_calls.specs.Walks.{CanStep, Walked, lets, shows_dead, stepped};

use cx_layout::{Columns, Kind, Node};
use cx_slots::SlotView;
use cx_state::Phase;
use cx_types::Step;

/// What a walk to a part finds: the part's first slot, whether the part is there, as each union on the way has the member
/// active that the way leads to, and whether a class on the way hasn't begun its lifetime or has ended it.
#[derive(Clone, Copy)]
pub struct Found {
    pub start: u32,
    pub there: bool,
    pub dead: bool,
}

/// Whether an object with this header has the part that a step leads to: of a union's members the active one.
fn lets_through(is_union: bool, header: SlotView, step: Step) -> bool
    ensures { result ≡ lets is_union header step }
{
    !is_union
        || match (header, step) {
            (SlotView::Active(Some(member)), Step::Field(index)) => member == index,
            _ => false,
        }
}

/// Whether this is the header of a class whose lifetime has not begun, or has ended.
fn is_dead(header: SlotView) -> bool
    ensures { result ≡ shows_dead header }
{
    match header {
        SlotView::Phase(Phase::Unborn) => true,
        SlotView::Phase(Phase::Ended) => true,
        _ => false,
    }
}

/// From a part to one of its own.
fn step_down(slots: &[SlotView], above: Node, row: Node, outer: Found, slot: u32) -> Found
    requires { CanStep slots.now above row outer slot }
    ensures { result ≡ stepped slots.now above row outer slot }
{
    match above.kind {
        Kind::Scalar => outer,
        Kind::Array(_) => Found {
            start: outer.start + (slot - outer.start) / row.cells * row.cells,
            there: outer.there,
            dead: outer.dead,
        },
        Kind::Class(parts) => {
            let header = slots[outer.start as usize];
            Found {
                start: outer.start + row.under.offset,
                there: outer.there && lets_through(parts.is_union, header, row.under.step),
                dead: outer.dead || is_dead(header),
            }
        }
    }
}

/// The way to the part of a node in which a slot lies. It takes time and native stack by the depth of the node.
pub fn find_part(columns: &Columns, slots: &[SlotView], node: u32, slot: u32) -> Found
    requires place { IsIn columns.now.nodes.items columns.now.parts.items (columns_form columns.now) node slot }
    requires slots { length slots.now ≡ cells (columns_form columns.now) }
    ensures { Walked (columns_form columns.now) slots.now node slot result }
{
    if node == 0 {
        return Found {
            start: 0,
            there: true,
            dead: false,
        };
    }
    let row = columns.node(node);
    let outer = find_part(columns, slots, row.under.parent, slot);
    let above = columns.node(row.under.parent);
    step_down(slots, above, row, outer, slot)
}
