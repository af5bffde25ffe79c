//! Making a member of a union the active one, and leaving a union without one ([class.union]).

ghost use Rattle.std.specs.Prelude.{◌≡◌, List, None};
ghost use Rattle.cx_shapes.specs.Forms.{Form};
ghost use Rattle.cx_state.specs.Steps as steps;
ghost use Rattle.cx_state.specs.Forms.{Knows};
ghost use Rattle.cx_store.specs.Stores as says;
ghost use Rattle.cx_store.specs.Stores.{Changed};
ghost use Rattle.cx_records.specs.Records.{objects_of, forms_in, path_in, cell_of};
ghost use Rattle.cx_records.specs.Fits.{Fits};

use crate::renew::renew_at;
use crate::target::target_of;
use cx_base::Rule;
use cx_records::{Content, Place, Records};
use cx_state::Phase;
use cx_types::Types;

/// The phase of each class of a new member.
fn begun(alive: bool) -> Phase
    ensures { result ≡ steps.begun alive }
{
    if alive { Phase::Alive } else { Phase::Unborn }
}

/// Makes a member of a union the active one. The active member stays as it is, but for a class whose lifetime has ended;
/// another begins as its type begins, each class in it alive or unborn.
pub fn activate(
    records: &mut Records,
    types: &Types,
    at: Place,
    member: u32,
    alive: bool,
) -> Result<(), Rule>
    requires fits { Fits types.now records.old.records.items records.old.live }
    requires known { Knows types.now (objects_of records.old.records.items) (path_in (forms_in records.old.records.items) at) }
    requires union { says.IsUnionAt types.now (objects_of records.old.records.items) (path_in (forms_in records.old.records.items) at) }
    requires there { says.HasField types.now (objects_of records.old.records.items) (path_in (forms_in records.old.records.items) at) member }
    ensures changed { Changed (steps.activate types.now (objects_of records.old.records.items) (path_in (forms_in records.old.records.items) at) member alive) (objects_of records.old.records.items) (objects_of records.new.records.items) result }
    ensures paths { forms_in records.new.records.items ≡ forms_in records.old.records.items }
    ensures fit { Fits types.now records.new.records.items records.new.live }
    ensures knows { says.StillKnows (objects_of records.old.records.items) (objects_of records.new.records.items) }
{
    match records.init_rule(types, at) {
        Some(rule) => Err(rule),
        None => {
            let target = target_of(records, types, at, member);
            if target.stays {
                Ok(())
            } else {
                renew_at(records, at, member, target, begun(alive));
                Ok(())
            }
        }
    }
}

/// What is kept of a union without active member.
fn no_member() -> Content
    ensures { (fs : List Form) → (cell_of fs result).member ≡ None }
{
    Content::Phase(Phase::Unborn)
}

/// Leaves a union without active member. What it held is given up; no memory is taken.
pub fn deactivate(records: &mut Records, types: &Types, at: Place) -> Result<(), Rule>
    requires fits { Fits types.now records.old.records.items records.old.live }
    requires known { Knows types.now (objects_of records.old.records.items) (path_in (forms_in records.old.records.items) at) }
    requires union { says.IsUnionAt types.now (objects_of records.old.records.items) (path_in (forms_in records.old.records.items) at) }
    ensures changed { Changed (steps.deactivate types.now (objects_of records.old.records.items) (path_in (forms_in records.old.records.items) at)) (objects_of records.old.records.items) (objects_of records.new.records.items) result }
    ensures paths { forms_in records.new.records.items ≡ forms_in records.old.records.items }
    ensures fit { Fits types.now records.new.records.items records.new.live }
    ensures knows { says.StillKnows (objects_of records.old.records.items) (objects_of records.new.records.items) }
{
    match records.init_rule(types, at) {
        Some(rule) => Err(rule),
        None => {
            records.put(at, no_member());
            Ok(())
        }
    }
}
