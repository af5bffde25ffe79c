//! New slots.

ghost use Rattle.std.specs.Prelude.{◌≡◌, ℕ, ◌+◌, ◌*◌, ◌-◌, ◌^◌, ◌<◌, ◌≤◌, length, slice_get, Some};
ghost use Rattle.cx_slot_calls.specs.Fills.{Blanked, Filled, PartsFilled, PartsRoom, Room, RowFilled, RowRoom};

use cx_layout::{Columns, Kind};
use cx_slots::SlotView;
use cx_state::{Phase, Scalar};

/// Leaves no value in the slots from one to before another.
pub(crate) fn blank(slots: &mut [SlotView], from: u32, to: u32)
    requires { (from ≤ to) × (to ≤ length slots.old) }
    ensures { Blanked from (to - from) slots.old slots.new }
{
    for i in from..to {
        slots[i as usize] = SlotView::Value(Scalar::Indeterminate);
    }
}

/// The node that is listed at `index` behind `from`.
pub(crate) fn listed(columns: &Columns, from: u32, index: u32) -> u32
    requires { from + index < length columns.now.parts.items }
    ensures { slice_get columns.now.parts.items (from + index) ≡ Some result }
{
    columns.parts[from as usize + index as usize]
}

/// Writes a new tree of a node's form, whose classes are in that phase. It takes time by the cells of the node, and native
/// stack by its depth.
#[cycle(fill)]
pub(crate) fn fill(columns: &Columns, slots: &mut [SlotView], node: u32, slot: u32, phase: Phase)
    requires { Room columns.now.nodes.items columns.now.parts.items (length slots.old) node slot }
    ensures { Filled columns.now.nodes.items columns.now.parts.items phase node slot slots.old slots.new }
{
    let row = columns.node(node);
    match row.kind {
        Kind::Scalar => {
            slots[slot as usize] = SlotView::Value(Scalar::Indeterminate);
        }
        Kind::Array(count) => {
            fill_row(columns, slots, node + 1, count, slot, phase);
        }
        Kind::Class(parts) => {
            if parts.is_union {
                slots[slot as usize] = SlotView::Active(None);
                blank(slots, slot + 1, slot + row.cells);
            } else {
                slots[slot as usize] = SlotView::Phase(phase);
                fill_parts(
                    columns,
                    slots,
                    node,
                    row.bases_from,
                    parts.bases,
                    slot,
                    phase,
                );
                fill_parts(
                    columns,
                    slots,
                    node,
                    row.members_from,
                    parts.members,
                    slot,
                    phase,
                );
            }
        }
    }
}

/// Writes new elements.
#[cycle(fill)]
fn fill_row(
    columns: &Columns,
    slots: &mut [SlotView],
    node: u32,
    count: u32,
    slot: u32,
    phase: Phase,
)
    requires { RowRoom columns.now.nodes.items columns.now.parts.items (length slots.old) node count slot }
    ensures { RowFilled columns.now.nodes.items columns.now.parts.items phase node count slot slots.old slots.new }
{
    let row = columns.node(node);
    for i in 0..count {
        fill(columns, slots, node, slot + i * row.cells, phase);
    }
}

/// Writes the new bases or members of a class, which are listed from there on.
#[cycle(fill)]
fn fill_parts(
    columns: &Columns,
    slots: &mut [SlotView],
    parent: u32,
    from: u32,
    count: u32,
    slot: u32,
    phase: Phase,
)
    requires { PartsRoom columns.now.nodes.items columns.now.parts.items (length slots.old) parent from count slot }
    ensures { PartsFilled columns.now.nodes.items columns.now.parts.items phase parent from count slot slots.old slots.new }
{
    for i in 0..count {
        let node = listed(columns, from, i);
        let row = columns.node(node);
        fill(columns, slots, node, slot + row.under.offset, phase);
    }
}
