//! The class that decides what a virtual call reaches ([class.virtual], [class.cdtor]).

ghost use Rattle.std.specs.Prelude.{◌≡◌, not, is_some, IfOk};
ghost use Rattle.cx_state.specs.Conditions.{is_opaque};
ghost use Rattle.cx_state.specs.Forms.{Knows};
ghost use Rattle.cx_store.specs.Stores as says;
ghost use Rattle.cx_records.specs.Records.{objects_of, forms_in, path_in};
ghost use Rattle.cx_records.specs.Fits.{Fits};
ghost use Rattle.cx_record_dynamic.specs.Chains.{class_found, IsDeciderAt};

use crate::chain::{Found, View, chain_in};
use cx_base::Rule;
use cx_records::{End, Place, Records, either, first_broken, whole_row, without};
use cx_state::Birth;
use cx_types::{ClassId, TypeKind, Types};

/// A class, and the number of the part that is of it.
#[derive(Clone, Copy, Drop)]
pub struct Decider {
    pub class: ClassId,
    pub number: u64,
}

fn class_found(found: Option<Found>) -> Option<Decider>
    ensures { result ≡ class_found found }
{
    match found {
        None => None,
        Some(found) => match found.row.kind {
            TypeKind::Class(class) => Some(Decider {
                class,
                number: found.number,
            }),
            _ => None,
        },
    }
}

fn is_opaque(birth: Birth) -> bool
    ensures { result ≡ is_opaque birth }
{
    matches!(birth, Birth::Opaque)
}

fn is_missing(decider: Option<Decider>) -> bool
    ensures { result ≡ not (is_some decider) }
{
    decider.is_none()
}

/// The class that decides at a known place, and the part that is of it.
fn decider_at(records: &Records, types: &Types, at: Place) -> Option<Decider>
    requires fits { Fits types.now records.now.records.items records.now.live }
    requires known { Knows types.now (objects_of records.now.records.items) (path_in (forms_in records.now.records.items) at) }
    ensures { IsDeciderAt types.now records.now.records.items at result }
{
    let record = records.record(at);
    let row = whole_row(types, record.ty, record.count, record.konst);
    let view = View {
        contents: &record.contents,
        opaque: is_opaque(record.birth),
        there: true,
    };
    class_found(chain_in(types, row, &record.shape, view, 0, at.part).found)
}

/// The class that decides what a virtual call reaches, and the object of it.
pub fn dynamic_class(records: &Records, types: &Types, at: Place) -> Result<(ClassId, Place), Rule>
    requires fits { Fits types.now records.now.records.items records.now.live }
    requires known { Knows types.now (objects_of records.now.records.items) (path_in (forms_in records.now.records.items) at) }
    requires class { says.IsClassAt types.now (objects_of records.now.records.items) (path_in (forms_in records.now.records.items) at) }
    ensures gives { says.Decides types.now (objects_of records.now.records.items) (path_in (forms_in records.now.records.items)) at result }
    ensures known { IfOk result (λ r. Knows types.now (objects_of records.now.records.items) (path_in (forms_in records.now.records.items) r.1)) }
{
    let condition = records.condition(types, at);
    let decider = decider_at(records, types, at);
    let undecided = without(is_missing(decider), condition.opaque);
    let broken = first_broken(&[
        (condition.released, Rule::Dangling),
        (condition.past, Rule::PastEnd),
        (condition.inactive, Rule::InactiveMember),
        (either(condition.lifeless, undecided), Rule::OutOfLifetime),
    ]);
    match (broken, decider) {
        (Some(rule), _) => Err(rule),
        (None, Some(decider)) => Ok((
            decider.class,
            Place {
                object: at.object,
                part: decider.number,
                end: End::At,
            },
        )),
        (None, None) => unreachable!(),
    }
}
