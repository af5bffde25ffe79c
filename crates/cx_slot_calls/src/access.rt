//! Reading and writing what stands at a place. Whether the object may be accessed at all is asked elsewhere.

ghost use Rattle.std.specs.Prelude.{◌≡◌, ◌<◌, ℕ, List, length};
ghost use Rattle.cx_type_defs.specs.declared.ids.Step.{Step};
ghost use Rattle.cx_state.specs.Objects.{Leaf as LeafTree, Path, Tree};
ghost use Rattle.cx_state.specs.Steps.{with_phase};
ghost use Rattle.cx_store.specs.Stores.{result_seen, seen};
ghost use Rattle.cx_layout.specs.declared.place.Place.{Place as PlaceOf};
ghost use Rattle.cx_layout.specs.Forms.{Leaf, cells};
ghost use Rattle.cx_layout.specs.Described.{IsTable, columns_form};
ghost use Rattle.cx_slot_calls.specs.Rules.{HasAt, IsAt, Show, Writes, load_of, reach_rule, store_rule};
ghost use Rattle.cx_slot_calls.specs.Walks.{slot_at, value_of};

use crate::way::find_part;
use cx_base::Rule;
use cx_layout::{Columns, Place};
use cx_slots::SlotView;
use cx_state::Scalar;

/// The value that a slot shows.
fn value_at(slots: &[SlotView], at: u32) -> Result<Scalar<Place>, Rule>
    requires { at < length slots.now }
    ensures { result ≡ value_of (slot_at slots.now at) }
{
    let slot = slots[at as usize];
    match slot {
        SlotView::Value(Scalar::Indeterminate) => Err(Rule::Indeterminate),
        SlotView::Value(value) => Ok(value),
        _ => Err(Rule::Indeterminate),
    }
}

/// The value of a scalar or reference ([conv.lval]). It takes time and native stack by the depth of the place.
pub fn load_at(columns: &Columns, slots: &[SlotView], at: Place) -> Result<Scalar<Place>, Rule>
    requires table { IsTable columns.now }
    requires slots { length slots.now ≡ cells (columns_form columns.now) }
    requires scalar { HasAt (columns_form columns.now) at Leaf }
    ensures { (path : PlaceOf → Path) (x : Tree) (ss : List Step) → Show path slots.now (columns_form columns.now) x → IsAt (columns_form columns.now) ss at Leaf → result_seen (seen path) result ≡ load_of x ss }
{
    let found = find_part(columns, slots, at.node, at.slot);
    if !found.there {
        return Err(Rule::InactiveMember);
    }
    if found.dead {
        return Err(Rule::OutOfLifetime);
    }
    value_at(slots, at.slot)
}

/// Gives a scalar or reference its first value ([dcl.init]), as `load_at`.
pub fn init_at(
    columns: &Columns,
    slots: &mut [SlotView],
    at: Place,
    value: Scalar<Place>,
) -> Result<(), Rule>
    requires table { IsTable columns.now }
    requires slots { length slots.old ≡ cells (columns_form columns.now) }
    requires scalar { HasAt (columns_form columns.now) at Leaf }
    ensures { (path : PlaceOf → Path) (x : Tree) (ss : List Step) → Show path slots.old (columns_form columns.now) x → IsAt (columns_form columns.now) ss at Leaf → Writes path (columns_form columns.now) x ss (λ _. LeafTree (seen path value)) (reach_rule x ss) slots.old slots.new result }
{
    let found = find_part(columns, slots, at.node, at.slot);
    if !found.there {
        return Err(Rule::InactiveMember);
    }
    slots[at.slot as usize] = SlotView::Value(value);
    Ok(())
}

/// Gives a scalar another value ([expr.ass]), unless it is sealed, as `load_at`.
pub fn store_at(
    columns: &Columns,
    slots: &mut [SlotView],
    at: Place,
    value: Scalar<Place>,
    sealed: bool,
) -> Result<(), Rule>
    requires table { IsTable columns.now }
    requires slots { length slots.old ≡ cells (columns_form columns.now) }
    requires scalar { HasAt (columns_form columns.now) at Leaf }
    ensures { (path : PlaceOf → Path) (x : Tree) (ss : List Step) → Show path slots.old (columns_form columns.now) x → IsAt (columns_form columns.now) ss at Leaf → Writes path (columns_form columns.now) x ss (λ _. LeafTree (seen path value)) (store_rule sealed x ss) slots.old slots.new result }
{
    let found = find_part(columns, slots, at.node, at.slot);
    if !found.there {
        return Err(Rule::InactiveMember);
    }
    if found.dead {
        return Err(Rule::OutOfLifetime);
    }
    if sealed {
        return Err(Rule::ConstWrite);
    }
    slots[at.slot as usize] = SlotView::Value(value);
    Ok(())
}
