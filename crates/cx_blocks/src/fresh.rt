//! What a new object shows, cell by cell.

ghost use Rattle.std.specs.Prelude.{◌≡◌, ◌+◌, ◌<◌, length, slice_get, Some};
ghost use Rattle.cx_blocks.specs.News.{AreNew, IsNew, NewAt, PartsNewAt, union_at};

use cx_layout::{Columns, Kind};
use cx_slots::SlotView;
use cx_state::{Phase, Scalar};

/// The node that is listed at `index` behind `from`.
fn listed(columns: &Columns, from: u32, index: u32) -> u32
    requires { from + index < length columns.now.parts.items }
    ensures { slice_get columns.now.parts.items (from + index) ≡ Some result }
{
    columns.parts[from as usize + index as usize]
}

/// What a new tree of a node's form, whose classes are in that phase, shows at a cell: nothing behind its last one. It
/// takes time and native stack by the depth of the node, and time by the number of bases and members on the way.
#[cycle(fresh)]
pub(crate) fn fresh_slot(columns: &Columns, node: u32, i: u32, phase: Phase) -> Option<SlotView>
    requires { IsNew columns.now.nodes.items columns.now.parts.items node }
    ensures { NewAt columns.now.nodes.items columns.now.parts.items phase node i result }
{
    let row = columns.node(node);
    if i >= row.cells {
        return None;
    }
    match row.kind {
        Kind::Scalar => Some(SlotView::Value(Scalar::Indeterminate)),
        Kind::Array(count) => {
            let element = columns.node(node + 1);
            fresh_slot(columns, node + 1, i % element.cells, phase)
        }
        Kind::Class(parts) => {
            if parts.is_union {
                return Some(union_slot(i));
            }
            if i == 0 {
                return Some(SlotView::Phase(phase));
            }
            match fresh_part(columns, node, row.bases_from, parts.bases, i, phase) {
                Some(slot) => Some(slot),
                None => fresh_part(columns, node, row.members_from, parts.members, i, phase),
            }
        }
    }
}

/// What a union without active member shows.
fn union_slot(i: u32) -> SlotView
    ensures { result ≡ union_at i }
{
    if i == 0 {
        SlotView::Active(None)
    } else {
        SlotView::Value(Scalar::Indeterminate)
    }
}

/// What the bases or members of a new class show, which are listed from there on.
#[cycle(fresh)]
fn fresh_part(
    columns: &Columns,
    parent: u32,
    from: u32,
    count: u32,
    i: u32,
    phase: Phase,
) -> Option<SlotView>
    requires { AreNew columns.now.nodes.items columns.now.parts.items parent from count i }
    ensures { PartsNewAt columns.now.nodes.items columns.now.parts.items phase parent from count i result }
{
    for k in 0..count {
        let node = listed(columns, from, k);
        let row = columns.node(node);
        if i < row.under.offset + row.cells {
            return fresh_slot(columns, node, i - row.under.offset, phase);
        }
    }
    None
}
