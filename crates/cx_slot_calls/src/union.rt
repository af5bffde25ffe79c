//! Unions and their active members ([class.union]).

ghost use Rattle.std.specs.Prelude.{◌≡◌, ℕ, ◌+◌, ◌^◌, ◌<◌, ◌&&◌, true, List, length, Some};
ghost use Rattle.cx_type_defs.specs.declared.ids.Step.{Step as StepOf};
ghost use Rattle.cx_type_defs.specs.declared.ids.ClassId.{ClassId};
ghost use Rattle.cx_state.specs.Objects.{Path, Tree};
ghost use Rattle.cx_state.specs.Steps.{activated, deactivated};
ghost use Rattle.cx_layout.specs.declared.place.Place.{Place as PlaceOf};
ghost use Rattle.cx_layout.specs.Forms.{Forms, Part, cells, item};
ghost use Rattle.cx_layout.specs.Described.{IsTable, columns_form};
ghost use Rattle.cx_slots.specs.Fresh.{fresh};
ghost use Rattle.cx_slot_calls.specs.Rules.{HasMember, HasUnion, IsUnionAt, Show, Writes, reach_rule};
ghost use Rattle.cx_slot_calls.specs.Walks.{is_class_kind, keeps, shows_ended, shows_member, slot_at};

use crate::fill::{blank, fill, listed};
use crate::way::find_part;
use cx_base::Rule;
use cx_layout::{Columns, Kind, Place};
use cx_slots::SlotView;
use cx_state::Phase;

/// Whether this is the header of a union with that active member.
fn is_active(header: SlotView, member: u32) -> bool
    ensures { result ≡ shows_member header member }
{
    match header {
        SlotView::Active(Some(active)) => active == member,
        _ => false,
    }
}

/// Whether what begins at a slot is a class whose lifetime has ended.
fn has_ended(kind: Kind, slots: &[SlotView], start: u32) -> bool
    requires { is_class_kind kind ≡ true → start < length slots.now }
    ensures { result ≡ (is_class_kind kind && shows_ended (slot_at slots.now start)) }
{
    match kind {
        Kind::Class(_) => {
            let header = slots[start as usize];
            match header {
                SlotView::Phase(Phase::Ended) => true,
                _ => false,
            }
        }
        _ => false,
    }
}

/// Whether activating a member leaves a union as it is: it is the active one, and isn't a class whose lifetime has ended.
fn stays(slots: &[SlotView], at: u32, member: u32, kind: Kind, start: u32) -> bool
    requires header { at < length slots.now }
    requires first { is_class_kind kind ≡ true → start < length slots.now }
    ensures { result ≡ keeps (slot_at slots.now at) member kind (slot_at slots.now start) }
{
    is_active(slots[at as usize], member) && !has_ended(kind, slots, start)
}

/// Makes a member of a union the active one, with its classes in one phase; the active member stays as it is, unless it is
/// a class whose lifetime has ended. No slot of the member before stays. It takes time by the cells of the union, and
/// native stack by the depth of the place and of the member.
pub fn activate_at(
    columns: &Columns,
    slots: &mut [SlotView],
    at: Place,
    member: u32,
    phase: Phase,
) -> Result<(), Rule>
    requires table { IsTable columns.now }
    requires slots { length slots.old ≡ cells (columns_form columns.now) }
    requires union { HasMember (columns_form columns.now) at member }
    ensures { (path : PlaceOf → Path) (x : Tree) (ss : List StepOf) (c : ClassId) (ms : Forms) (a : Part) → Show path slots.old (columns_form columns.now) x → IsUnionAt (columns_form columns.now) ss at c ms → item true ms member ≡ Some a → Writes path (columns_form columns.now) x ss (activated member (fresh phase a.form)) (reach_rule x ss) slots.old slots.new result }
{
    let found = find_part(columns, slots, at.node, at.slot);
    if !found.there {
        return Err(Rule::InactiveMember);
    }
    let row = columns.node(at.node);
    let node = listed(columns, row.members_from, member);
    let part = columns.node(node);
    let start = at.slot + part.under.offset;
    if stays(slots, at.slot, member, part.kind, start) {
        return Ok(());
    }
    slots[at.slot as usize] = SlotView::Active(Some(member));
    fill(columns, slots, node, start, phase);
    blank(slots, start + part.cells, at.slot + row.cells);
    Ok(())
}

/// Leaves a union without active member, and no slot of the one before. It takes time by the cells of the union, and native
/// stack by the depth of the place.
pub fn deactivate_at(columns: &Columns, slots: &mut [SlotView], at: Place) -> Result<(), Rule>
    requires table { IsTable columns.now }
    requires slots { length slots.old ≡ cells (columns_form columns.now) }
    requires union { HasUnion (columns_form columns.now) at }
    ensures { (path : PlaceOf → Path) (x : Tree) (ss : List StepOf) (c : ClassId) (ms : Forms) → Show path slots.old (columns_form columns.now) x → IsUnionAt (columns_form columns.now) ss at c ms → Writes path (columns_form columns.now) x ss deactivated (reach_rule x ss) slots.old slots.new result }
{
    let found = find_part(columns, slots, at.node, at.slot);
    if !found.there {
        return Err(Rule::InactiveMember);
    }
    let row = columns.node(at.node);
    slots[at.slot as usize] = SlotView::Active(None);
    blank(slots, at.slot + 1, at.slot + row.cells);
    Ok(())
}
