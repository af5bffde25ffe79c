//! How the life of a class goes on ([class.base.init], [class.dtor]).

ghost use Rattle.std.specs.Prelude.{◌≡◌, ℕ, ◌<◌, List, length};
ghost use Rattle.cx_type_defs.specs.declared.ids.Step.{Step};
ghost use Rattle.cx_type_defs.specs.declared.ids.ClassId.{ClassId};
ghost use Rattle.cx_state.specs.Objects.{Path, Tree};
ghost use Rattle.cx_state.specs.Conditions.{phase_number};
ghost use Rattle.cx_state.specs.Steps.{with_phase};
ghost use Rattle.cx_layout.specs.declared.place.Place.{Place as PlaceOf};
ghost use Rattle.cx_layout.specs.Forms.{Forms, cells};
ghost use Rattle.cx_layout.specs.Described.{IsTable, columns_form};
ghost use Rattle.cx_slot_calls.specs.Rules.{HasClass, IsClassAt, Show, Writes, advance_rule};
ghost use Rattle.cx_slot_calls.specs.Walks.{shows_before, slot_at};

use crate::way::find_part;
use cx_base::Rule;
use cx_layout::{Columns, Place};
use cx_slots::SlotView;
use cx_state::Phase;

/// How far a phase is in a life.
fn number(phase: Phase) -> u32
    ensures { result ≡ phase_number phase }
{
    match phase {
        Phase::Unborn => 0,
        Phase::Bases => 1,
        Phase::Body => 2,
        Phase::Alive => 3,
        Phase::Ending => 4,
        Phase::EndingBases => 5,
        Phase::Ended => 6,
    }
}

/// Whether the class with its header there is in the phase just before that one.
fn is_before(slots: &[SlotView], at: u32, to: Phase) -> bool
    requires { at < length slots.now }
    ensures { result ≡ shows_before to (slot_at slots.now at) }
{
    let header = slots[at as usize];
    match header {
        SlotView::Phase(from) => number(from) + 1 == number(to),
        _ => false,
    }
}

/// Takes a class to the next phase of its life. It takes time and native stack by the depth of the place.
pub fn advance_at(
    columns: &Columns,
    slots: &mut [SlotView],
    at: Place,
    to: Phase,
) -> Result<(), Rule>
    requires table { IsTable columns.now }
    requires slots { length slots.old ≡ cells (columns_form columns.now) }
    requires class { HasClass (columns_form columns.now) at }
    ensures { (path : PlaceOf → Path) (x : Tree) (ss : List Step) (c : ClassId) (bs ms : Forms) → Show path slots.old (columns_form columns.now) x → IsClassAt (columns_form columns.now) ss at c bs ms → Writes path (columns_form columns.now) x ss (with_phase to) (advance_rule to x ss) slots.old slots.new result }
{
    let found = find_part(columns, slots, at.node, at.slot);
    if !found.there {
        return Err(Rule::InactiveMember);
    }
    if found.dead {
        return Err(Rule::OutOfLifetime);
    }
    if !is_before(slots, at.slot, to) {
        return Err(Rule::OutOfLifetime);
    }
    slots[at.slot as usize] = SlotView::Phase(to);
    Ok(())
}
