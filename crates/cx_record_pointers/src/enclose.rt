//! The objects that enclose a place through bases ([expr.static.cast], [class.derived]).

ghost use Rattle.std.specs.Prelude.{◌≡◌, ◌+◌, ◌^◌, ◌<◌, ◌&&◌, not, is_some, List, Some, IfOk};
ghost use Rattle.cx_type_defs.specs.declared.ids.Step.{Step as StepOf};
ghost use Rattle.cx_state.specs.Conditions.{is_base};
ghost use Rattle.cx_state.specs.Forms.{Knows};
ghost use Rattle.cx_state.specs.Steps as steps;
ghost use Rattle.cx_store.specs.Stores.{result_seen};
ghost use Rattle.cx_shapes.specs.Forms.{Small, form_of, steps_at};
ghost use Rattle.cx_shapes.specs.Kinds.{IsForm};
ghost use Rattle.cx_records.specs.Fits.{Fits};
ghost use Rattle.cx_records.specs.Records.{objects_of, forms_in, path_in};
ghost use Rattle.cx_record_pointers.specs.Enclosing.{Encloses, IsNearest, is_class, or_here};

use cx_base::Rule;
use cx_records::{End, Place, Records, both, first_broken, part_row, whole_row};
use cx_shapes::{Shape, way_of};
use cx_types::{ClassId, Step, TypeKind, TypeRow, Types};

/// The nearest object of the class that encloses a place through bases.
pub fn outer(store: &Records, types: &Types, at: Place, to: ClassId) -> Result<Place, Rule>
    requires fits { Fits types.now store.now.records.items store.now.live }
    requires known { Knows types.now (objects_of store.now.records.items) (path_in (forms_in store.now.records.items) at) }
    ensures gives { result_seen (path_in (forms_in store.now.records.items)) result ≡ steps.outer types.now (objects_of store.now.records.items) (path_in (forms_in store.now.records.items) at) to }
    ensures known { IfOk result (λ p. Knows types.now (objects_of store.now.records.items) (path_in (forms_in store.now.records.items) p)) }
{
    let condition = store.condition(types, at);
    let nearest = nearest_at(store, types, at, to);
    let broken = first_broken(&[
        (condition.released, Rule::Dangling),
        (condition.past, Rule::PastEnd),
        (is_none(nearest), Rule::DownCast),
    ]);
    match broken {
        Some(rule) => Err(rule),
        None => match nearest {
            Some(place) => Ok(place),
            None => unreachable!(),
        },
    }
}

fn is_none(found: Option<Place>) -> bool
    ensures { result ≡ not (is_some found) }
{
    found.is_none()
}

/// The place of that object, at a known place that is past no end.
fn nearest_at(store: &Records, types: &Types, at: Place, to: ClassId) -> Option<Place>
    requires fits { Fits types.now store.now.records.items store.now.live }
    requires known { Knows types.now (objects_of store.now.records.items) (path_in (forms_in store.now.records.items) at) }
    ensures { IsNearest types.now store.now.records.items at to result }
{
    let record = store.record(at);
    let row = whole_row(types, record.ty, record.count, record.konst);
    match nearest(types, row, &record.shape, 0, at.part, to).nearest {
        None => None,
        Some(part) => Some(Place {
            object: at.object,
            part,
            end: End::At,
        }),
    }
}

/// Whether a walk goes on through bases alone, and the number of the nearest object of a class that encloses its end.
#[derive(Clone, Copy, Drop)]
pub(crate) struct Enclosing {
    pub bases: bool,
    pub nearest: Option<u64>,
}

fn is_class(kind: TypeKind, to: ClassId) -> bool
    ensures { result ≡ is_class to kind }
{
    match kind {
        TypeKind::Class(class) => class.0 == to.0,
        _ => false,
    }
}

fn is_base(step: Step) -> bool
    ensures { result ≡ is_base step }
{
    matches!(step, Step::Base(_))
}

fn or_here(found: Option<u64>, here: bool, base: u64) -> Option<u64>
    ensures { result ≡ or_here found here base }
{
    match found {
        Some(number) => Some(number),
        None => { if here { Some(base) } else { None } }
    }
}

/// The walk from a shape with number `base` to the part with a number, counted from it.
fn nearest(
    types: &Types,
    row: TypeRow,
    shape: &Shape,
    base: u64,
    rest: u64,
    to: ClassId,
) -> Enclosing
    requires few { base + rest < 2 ^ 62 }
    requires small { Small (form_of shape.now) }
    requires form { IsForm types.now (form_of shape.now) row.kind }
    ensures { (ss : List StepOf) → steps_at (form_of shape.now) rest ≡ Some ss → Encloses types.now (form_of shape.now) row base to ss result }
{
    let here = is_class(row.kind, to);
    if rest == 0 {
        return Enclosing {
            bases: true,
            nearest: or_here(None, here, base),
        };
    }
    match way_of(shape, rest - 1) {
        None => Enclosing {
            bases: false,
            nearest: None,
        },
        Some(way) => {
            let part = part_row(types, row, way.step);
            let inner = nearest(types, part, way.shape, base + way.from, rest - way.from, to);
            let bases = both(is_base(way.step), inner.bases);
            Enclosing {
                bases,
                nearest: or_here(inner.nearest, both(bases, here), base),
            }
        }
    }
}
