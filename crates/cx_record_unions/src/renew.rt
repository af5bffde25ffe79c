//! A new member in place of what the union held ([class.union]).

ghost use Rattle.std.specs.Prelude.{◌≡◌, ◌<◌, ◌≤◌};
ghost use Rattle.cx_records.specs.Writes.{Rewritten};
ghost use Rattle.cx_record_unions.specs.Members.{HasRooms, HasRoomsAt, Cleared, Renewed};

use crate::target::Target;
use cx_records::{Content, Contents, Place, Records};
use cx_state::Phase;

/// Makes each part with a number in the range new: no value, no active member, a class in that phase.
fn clear(contents: &mut Contents, from: u64, to: u64, phase: Phase)
    requires order { from ≤ to }
    requires rooms { HasRooms to contents.old }
    ensures { Cleared from to phase contents.old contents.new }
{
    for number in from..to {
        contents.put(number, Content::Phase(phase));
    }
}

/// Makes a member of the union with that number new, and the active one.
fn renew(contents: &mut Contents, number: u64, member: u32, target: Target, phase: Phase)
    requires order { target.from ≤ target.to }
    requires rooms { HasRooms target.to contents.old }
    requires before { number < target.to }
    ensures { Renewed number target.from target.to member phase contents.old contents.new }
{
    clear(contents, target.from, target.to, phase);
    contents.put(number, Content::Member(member));
}

/// Makes a member of the union at a place new, and the active one.
pub(crate) fn renew_at(records: &mut Records, at: Place, member: u32, target: Target, phase: Phase)
    requires order { target.from ≤ target.to }
    requires rooms { HasRoomsAt records.old.records.items at target.to }
    requires before { at.part < target.to }
    ensures written { Rewritten records.old.records.items records.new.records.items at (Renewed at.part target.from target.to member phase) }
    ensures live { records.new.live ≡ records.old.live }
{
    let record = &mut records.records[at.object as usize];
    renew(&mut record.contents, at.part, member, target, phase);
}
