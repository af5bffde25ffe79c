//! Whole objects.

ghost use Rattle.std.specs.Prelude.{◌≡◌, length};
ghost use Rattle.cx_state.specs.Objects.{Path};
ghost use Rattle.cx_layout.specs.declared.place.Place.{Place};
ghost use Rattle.cx_layout.specs.Forms.{cells};
ghost use Rattle.cx_layout.specs.Described.{IsTable, columns_form};
ghost use Rattle.cx_slots.specs.Fresh.{fresh};
ghost use Rattle.cx_slot_calls.specs.Rules.{Show};

use crate::fill::fill;
use cx_layout::Columns;
use cx_slots::SlotView;
use cx_state::Phase;

/// Makes all of an object new, with its classes in one phase.
pub fn renew(columns: &Columns, slots: &mut [SlotView], phase: Phase)
    requires table { IsTable columns.now }
    requires slots { length slots.old ≡ cells (columns_form columns.now) }
    ensures { (path : Place → Path) → Show path slots.new (columns_form columns.now) (fresh phase (columns_form columns.now)) }
{
    fill(columns, slots, 0, 0, phase);
}
