//! The member that is to be made active ([class.union]).

ghost use Rattle.std.specs.Prelude.{◌≡◌, ◌&&◌, not, ◌<◌, ◌^◌};
ghost use Rattle.cx_state.specs.Forms.{Knows};
ghost use Rattle.cx_shapes.specs.Forms.{form_of};
ghost use Rattle.cx_shapes.specs.Contents.{Cell, is_member};
ghost use Rattle.cx_records.specs.Records.{objects_of, forms_in, path_in};
ghost use Rattle.cx_records.specs.Fits.{Fits};
ghost use Rattle.cx_records.specs.Parts.{IsPartAt};
ghost use Rattle.cx_record_unions.specs.Members.{IsTarget, is_ended_class};
ghost use Rattle.cx_type_defs.specs.declared.ids.Step.TheVariants as StepTo;

use cx_records::{Place, Records};
use cx_shapes::{Shape, part_at, size_of};
use cx_state::Phase;
use cx_types::{Step, Types};

/// The numbers of a member's parts, from one to before another, and whether it is the active member and stays so.
#[derive(Clone, Copy, Drop)]
pub struct Target {
    pub from: u64,
    pub to: u64,
    pub stays: bool,
}

/// Whether it is a class whose lifetime has ended ([basic.life]).
fn ended_at(shape: &Shape, phase: Phase) -> bool
    ensures { (c : Cell) → c.phase ≡ phase → result ≡ is_ended_class (form_of shape.now) c }
{
    match shape {
        Shape::Class(..) => matches!(phase, Phase::Ended),
        _ => false,
    }
}

/// Whether the member is the active one, and no class whose lifetime has ended.
fn stays_so(active: Option<u32>, member: u32, ended: bool) -> bool
    ensures { result ≡ (is_member member active && not ended) }
{
    active == Some(member) && !ended
}

/// A member of the union at a known place.
pub(crate) fn target_of(records: &Records, types: &Types, at: Place, member: u32) -> Target
    requires fits { Fits types.now records.now.records.items records.now.live }
    requires known { Knows types.now (objects_of records.now.records.items) (path_in (forms_in records.now.records.items) at) }
    requires there { IsPartAt records.now.records.items at (StepTo.Field member) }
    ensures { IsTarget records.now.records.items at member result }
{
    let shape = records.found(types, at).shape;
    let contents = &records.record(at).contents;
    match part_at(shape, Step::Field(member)) {
        None => unreachable!(),
        Some(piece) => {
            let from = at.part + piece.from;
            let ended = ended_at(piece.shape, contents.phase(from));
            Target {
                from,
                to: from + size_of(piece.shape),
                stays: stays_so(contents.member(at.part), member, ended),
            }
        }
    }
}
