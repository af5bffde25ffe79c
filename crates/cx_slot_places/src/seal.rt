//! What nothing may write to ([dcl.type.cv], [basic.life]).

ghost use Rattle.std.specs.Prelude.{◌≡◌, ℕ, ◌+◌, ◌^◌, ◌<◌, ◌&&◌, ◌||◌, true, List, length, slice_get, Some, IsSome, option_map};
ghost use Rattle.cx_type_defs.specs.declared.ids.Step.{Step as StepOf};
ghost use Rattle.cx_type_defs.specs.declared.kind.TypeRow.{TypeRow as Row};
ghost use Rattle.cx_state.specs.Objects.{Path, Tree};
ghost use Rattle.cx_state.specs.Places.{row_part, whole_kind};
ghost use Rattle.cx_state.specs.Conditions.{sealed};
ghost use Rattle.cx_layout.specs.declared.place.Place.{Place as PlaceOf};
ghost use Rattle.cx_layout.specs.Forms.{Form, cells};
ghost use Rattle.cx_layout.specs.Described.{IsTable, columns_form};
ghost use Rattle.cx_layout.specs.Walks.{IsIn};
ghost use Rattle.cx_slot_calls.specs.Rules.{HasAt, IsAt, Show};
ghost use Rattle.cx_slot_calls.specs.Walks.{slot_at};
ghost use Rattle.cx_slot_places.specs.Lives.{IsFormOf};
ghost use Rattle.cx_slot_places.specs.Standings.{Stands, has_header, holds_fast, opens, stood};

use crate::walk::step_on;
use cx_layout::{Columns, Kind, Place};
use cx_slots::SlotView;
use cx_state::{Phase, Scalar};
use cx_types::{Step, TypeId, TypeKind, TypeRow, Types};

/// The type of a whole object, or of so many of its type.
pub fn whole_row(types: &Types, ty: TypeId, count: Option<u32>, konst: bool) -> TypeRow
    requires { ty.0 < length types.now.rows }
    ensures { option_map (λ (r : Row). record { kind = whole_kind count ty r.kind; konst = konst || r.konst }) (slice_get types.now.rows ty.0) ≡ Some result }
{
    let row = types.row(ty);
    let kind = match count {
        None => row.kind,
        Some(count) => TypeKind::Array(ty, count),
    };
    TypeRow {
        kind,
        konst: konst || row.konst,
    }
}

/// The type of the part that a step leads to, which there must be.
fn part_row(types: &Types, row: TypeRow, step: Step) -> TypeRow
    requires { IsSome (row_part types.now row step) }
    ensures { row_part types.now row step ≡ Some result }
{
    match (row.kind, step) {
        (TypeKind::Array(of, _), Step::Elem(_)) => {
            let element = types.row(of);
            TypeRow {
                kind: element.kind,
                konst: row.konst || element.konst,
            }
        }
        (TypeKind::Class(class), Step::Base(index)) => TypeRow {
            kind: TypeKind::Class(types.base_at(class, index)),
            konst: false,
        },
        (TypeKind::Class(class), Step::Field(index)) => types.row(types.field_at(class, index)),
        _ => unreachable!(),
    }
}

/// Where a walk to a part stands: the part's first slot and type, whether it is there, and whether it or a part on the way
/// is const and alive, or const and has a value.
#[derive(Clone, Copy)]
pub(crate) struct Standing {
    pub(crate) start: u32,
    pub(crate) row: TypeRow,
    pub(crate) there: bool,
    pub(crate) sealed: bool,
}

/// Whether a part that begins at a slot is a class that is alive, or a scalar with a value.
fn holds_fast(kind: Kind, slots: &[SlotView], start: u32) -> bool
    requires { has_header kind ≡ true → start < length slots.now }
    ensures { result ≡ holds_fast kind (slot_at slots.now start) }
{
    match kind {
        Kind::Array(_) => false,
        Kind::Scalar => {
            let slot = slots[start as usize];
            match slot {
                SlotView::Value(Scalar::Indeterminate) => false,
                SlotView::Value(_) => true,
                _ => false,
            }
        }
        Kind::Class(_) => {
            let header = slots[start as usize];
            match header {
                SlotView::Phase(Phase::Alive) => true,
                _ => false,
            }
        }
    }
}

/// Whether a part that begins at a slot has the part of it that a step leads to: of a union's members the active one.
fn opens(kind: Kind, slots: &[SlotView], start: u32, step: Step) -> bool
    requires { has_header kind ≡ true → start < length slots.now }
    ensures { result ≡ opens kind (slot_at slots.now start) step }
{
    match kind {
        Kind::Class(parts) => {
            let header = slots[start as usize];
            !parts.is_union
                || match (header, step) {
                    (SlotView::Active(Some(member)), Step::Field(index)) => member == index,
                    _ => false,
                }
        }
        _ => true,
    }
}

/// One step on from where a walk stands: to a part with that first slot and type, to which its way is open or not, and
/// which holds fast what is in it or not.
fn stood(outer: Standing, start: u32, row: TypeRow, is_open: bool, fast: bool) -> Standing
    ensures { result ≡ stood outer start row is_open fast }
{
    let there = outer.there && is_open;
    Standing {
        start,
        row,
        there,
        sealed: outer.sealed || there && row.konst && fast,
    }
}

/// The walk to the part of a node in which a slot lies. It takes time and native stack by the depth of the node.
fn stand_at(
    columns: &Columns,
    types: &Types,
    whole: TypeRow,
    slots: &[SlotView],
    node: u32,
    slot: u32,
) -> Standing
    requires place { IsIn columns.now.nodes.items columns.now.parts.items (columns_form columns.now) node slot }
    requires slots { length slots.now ≡ cells (columns_form columns.now) }
    requires form { IsFormOf types.now whole.kind (columns_form columns.now) }
    ensures { Stands types.now whole (columns_form columns.now) slots.now node slot result }
{
    types.sound();
    let part = columns.node(node);
    if node == 0 {
        let fast = holds_fast(part.kind, slots, 0);
        return Standing {
            start: 0,
            row: whole,
            there: true,
            sealed: whole.konst && fast,
        };
    }
    let outer = stand_at(columns, types, whole, slots, part.under.parent, slot);
    let above = columns.node(part.under.parent);
    let next = step_on(part, outer.start, slot);
    let is_open = opens(above.kind, slots, outer.start, next.step);
    let row = part_row(types, outer.row, next.step);
    let fast = holds_fast(part.kind, slots, next.start);
    stood(outer, next.start, row, is_open, fast)
}

/// Whether nothing may write to a place: whether it or a part on the way to it is const, and is a class that is alive or
/// a scalar with a value ([dcl.type.cv]). It takes time and native stack by the depth of the place.
pub fn sealed_at(
    columns: &Columns,
    types: &Types,
    whole: TypeRow,
    slots: &[SlotView],
    at: Place,
) -> bool
    requires table { IsTable columns.now }
    requires slots { length slots.now ≡ cells (columns_form columns.now) }
    requires form { IsFormOf types.now whole.kind (columns_form columns.now) }
    requires place { (u : Form) × HasAt (columns_form columns.now) at u }
    ensures { (path : PlaceOf → Path) (x : Tree) (ss : List StepOf) (u : Form) → Show path slots.now (columns_form columns.now) x → IsAt (columns_form columns.now) ss at u → result ≡ sealed types.now whole x ss }
{
    stand_at(columns, types, whole, slots, at.node, at.slot).sealed
}
