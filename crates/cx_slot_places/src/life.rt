//! Reading which member is active, and whether a part may be used as an object of its class ([class.union], [basic.life],
//! [class.cdtor]).

ghost use Rattle.std.specs.Prelude.{◌≡◌, ℕ, ◌+◌, ◌-◌, ◌<◌, ◌≤◌, ◌&&◌, ◌||◌, true, false, List, length};
ghost use Rattle.cx_type_defs.specs.declared.ids.Step.{Step as StepOf};
ghost use Rattle.cx_type_defs.specs.declared.ids.ClassId.{ClassId as Class};
ghost use Rattle.cx_state.specs.Objects.{Path, Tree};
ghost use Rattle.cx_layout.specs.declared.place.Place.{Place as PlaceOf};
ghost use Rattle.cx_layout.specs.Forms.{Form, Forms, cells};
ghost use Rattle.cx_layout.specs.Described.{IsTable, columns_form};
ghost use Rattle.cx_layout.specs.Places.{Leads};
ghost use Rattle.cx_slot_calls.specs.Rules.{HasAt, HasClass, HasUnion, IsAt, IsClassAt, IsUnionAt, Show};
ghost use Rattle.cx_slot_calls.specs.Walks.{is_class_kind, shows_dead, slot_at};
ghost use Rattle.cx_slot_places.specs.Lives.{Tells, active_of, call_of, dynamic_of};
ghost use Rattle.cx_slot_places.specs.Standings.{DecidesAt, IsClassPlace, decided, deciding_here, derived, shows_active, shows_deciding};

use cx_base::Rule;
use cx_layout::{Columns, Kind, Node, Place};
use cx_slot_calls::find_part;
use cx_slots::SlotView;
use cx_state::Phase;
use cx_types::{ClassId, Step};

/// The active member that a union's first slot shows.
fn shown_member(slots: &[SlotView], at: u32) -> Option<u32>
    requires { at < length slots.now }
    ensures { result ≡ shows_active (slot_at slots.now at) }
{
    let header = slots[at as usize];
    match header {
        SlotView::Active(member) => member,
        _ => None,
    }
}

/// The active member of a union, if it has one ([class.union]). It takes time and native stack by the depth of the place.
pub fn active_at(columns: &Columns, slots: &[SlotView], at: Place) -> Result<Option<u32>, Rule>
    requires table { IsTable columns.now }
    requires slots { length slots.now ≡ cells (columns_form columns.now) }
    requires union { HasUnion (columns_form columns.now) at }
    ensures { (path : PlaceOf → Path) (x : Tree) (ss : List StepOf) (c : Class) (ms : Forms) → Show path slots.now (columns_form columns.now) x → IsUnionAt (columns_form columns.now) ss at c ms → result ≡ active_of x ss }
{
    let found = find_part(columns, slots, at.node, at.slot);
    if !found.there {
        return Err(Rule::InactiveMember);
    }
    if found.dead {
        return Err(Rule::OutOfLifetime);
    }
    Ok(shown_member(slots, at.slot))
}

/// Whether what begins at a slot is a class whose lifetime hasn't begun, or has ended.
fn is_dead(kind: Kind, slots: &[SlotView], start: u32) -> bool
    requires { is_class_kind kind ≡ true → start < length slots.now }
    ensures { result ≡ (is_class_kind kind && shows_dead (slot_at slots.now start)) }
{
    match kind {
        Kind::Class(_) => {
            let header = slots[start as usize];
            match header {
                SlotView::Phase(Phase::Unborn) => true,
                SlotView::Phase(Phase::Ended) => true,
                _ => false,
            }
        }
        _ => false,
    }
}

/// Whether a member function may be called on what is there ([basic.life]). It takes time and native stack by the depth of
/// the place.
pub fn call_at(columns: &Columns, slots: &[SlotView], at: Place) -> Result<(), Rule>
    requires table { IsTable columns.now }
    requires slots { length slots.now ≡ cells (columns_form columns.now) }
    requires place { (u : Form) × HasAt (columns_form columns.now) at u }
    ensures { (path : PlaceOf → Path) (x : Tree) (ss : List StepOf) (u : Form) → Show path slots.now (columns_form columns.now) x → IsAt (columns_form columns.now) ss at u → result ≡ call_of x ss }
{
    let found = find_part(columns, slots, at.node, at.slot);
    if !found.there {
        return Err(Rule::InactiveMember);
    }
    if found.dead || is_dead(columns.node(at.node).kind, slots, at.slot) {
        return Err(Rule::OutOfLifetime);
    }
    Ok(())
}

/// A class, and the place of an object of it.
#[derive(Clone, Copy)]
pub(crate) struct Decider {
    pub(crate) class: ClassId,
    pub(crate) place: Place,
}

/// Whether an object is opaque, or this is the header of a class that is being made or unmade, or is alive.
fn decides(opaque: bool, slots: &[SlotView], at: u32) -> bool
    requires { opaque ≡ false → at < length slots.now }
    ensures { result ≡ (opaque || shows_deciding (slot_at slots.now at)) }
{
    if opaque {
        return true;
    }
    let header = slots[at as usize];
    match header {
        SlotView::Phase(Phase::Body) => true,
        SlotView::Phase(Phase::Alive) => true,
        SlotView::Phase(Phase::Ending) => true,
        _ => false,
    }
}

/// The class at the place, where it decides.
fn deciding_here(kind: Kind, slots: &[SlotView], opaque: bool, at: Place) -> Option<Decider>
    requires { opaque ≡ false → at.slot < length slots.now }
    ensures { result ≡ deciding_here kind opaque (slot_at slots.now at.slot) at }
{
    match kind {
        Kind::Class(parts) => {
            if decides(opaque, slots, at.slot) {
                return Some(Decider {
                    class: parts.class,
                    place: at,
                });
            }
            None
        }
        _ => None,
    }
}

/// The place of the object of which the one at the place is a direct base.
fn derived(row: Node, at: Place) -> Option<Place>
    requires { 1 ≤ at.node → row.under.offset ≤ at.slot }
    ensures { result ≡ derived row at }
{
    if at.node == 0 {
        return None;
    }
    match row.under.step {
        Step::Base(_) => Some(Place {
            block: at.block,
            slot: at.slot - row.under.offset,
            node: row.under.parent,
            past: false,
        }),
        _ => None,
    }
}

/// The outermost object that decides among the one at the place and those that it is a base of, and its class. It takes
/// time and native stack by how many of them there are.
fn decider_at(columns: &Columns, slots: &[SlotView], opaque: bool, at: Place) -> Option<Decider>
    requires table { IsTable columns.now }
    requires slots { opaque ≡ false → length slots.now ≡ cells (columns_form columns.now) }
    requires here { at.past ≡ false }
    requires class { IsClassPlace (columns_form columns.now) at }
    ensures { DecidesAt (columns_form columns.now) opaque slots.now at result }
{
    let row = columns.node(at.node);
    match derived(row, at) {
        None => deciding_here(row.kind, slots, opaque, at),
        Some(outer) => match decider_at(columns, slots, opaque, outer) {
            None => deciding_here(row.kind, slots, opaque, at),
            Some(found) => Some(found),
        },
    }
}

fn decided(found: Option<Decider>) -> Result<(ClassId, Place), Rule>
    ensures { result ≡ decided found }
{
    match found {
        None => Err(Rule::OutOfLifetime),
        Some(found) => Ok((found.class, found.place)),
    }
}

/// The class that decides what a virtual call reaches, and the place of the object of it ([class.virtual], [class.cdtor]).
/// Of an opaque object there are no slots. It takes time and native stack by the depth of the place.
pub fn dynamic_at(
    columns: &Columns,
    slots: &[SlotView],
    opaque: bool,
    at: Place,
) -> Result<(ClassId, Place), Rule>
    requires table { IsTable columns.now }
    requires slots { opaque ≡ false → length slots.now ≡ cells (columns_form columns.now) }
    requires here { at.past ≡ false }
    requires class { HasClass (columns_form columns.now) at }
    ensures { (path : PlaceOf → Path) (x : Tree) (ss : List StepOf) (c : Class) (bs ms : Forms) → (opaque ≡ false → Show path slots.now (columns_form columns.now) x) → IsClassAt (columns_form columns.now) ss at c bs ms → Tells (columns_form columns.now) at.block result (dynamic_of (columns_form columns.now) opaque x ss) }
{
    if opaque {
        return decided(decider_at(columns, slots, true, at));
    }
    match call_at(columns, slots, at) {
        Err(rule) => Err(rule),
        Ok(()) => decided(decider_at(columns, slots, false, at)),
    }
}
