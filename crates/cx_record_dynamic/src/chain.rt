//! The objects that enclose a part through bases alone, and the outermost of them that decides ([class.cdtor]).

ghost use Rattle.std.specs.Prelude.{◌≡◌, ◌+◌, ◌^◌, ◌<◌, ◌≤◌, List, Option, Some, None, option_map, if◌then◌else◌, IfSome};
ghost use Rattle.std.specs.Option.{option_or};
ghost use Rattle.cx_type_defs.specs.declared.ids.Step.{Step as StepOf};
ghost use Rattle.cx_state.specs.Conditions.{is_base};
ghost use Rattle.cx_shapes.specs.Forms.{Form, Small, form_of, steps_at};
ghost use Rattle.cx_shapes.specs.Contents.{Cell, tree_of};
ghost use Rattle.cx_shapes.specs.Kinds.{IsForm};
ghost use Rattle.cx_records.specs.Records.{cells_of};
ghost use Rattle.cx_record_dynamic.specs.Chains.{is_deciding_class, behind, shown, IsChain};

use cx_records::{Contents, both, either, open_at, part_row};
use cx_shapes::{Shape, way_of};
use cx_state::Phase;
use cx_types::{Step, TypeRow, Types};

/// How an object is seen: what it holds, whether it has an address alone, and whether it is there.
#[derive(Clone, Copy, Drop)]
pub struct View<'a> {
    pub contents: &'a Contents,
    pub opaque: bool,
    pub there: bool,
}

/// A part: its number, counted from the one that the walk begins at, and its type.
#[derive(Clone, Copy, Drop)]
pub struct Found {
    pub number: u64,
    pub row: TypeRow,
}

/// Whether only bases lead to the part asked of, and the outermost on the way that encloses it through bases and decides.
#[derive(Clone, Copy, Drop)]
pub struct Chain {
    pub bases: bool,
    pub found: Option<Found>,
}

/// Whether it is a class that is being made or unmade, or is alive.
fn deciding_at(shape: &Shape, phase: Phase) -> bool
    ensures { (c : Cell) → c.phase ≡ phase → result ≡ is_deciding_class (form_of shape.now) c }
{
    match shape {
        Shape::Class(..) => matches!(phase, Phase::Body | Phase::Alive | Phase::Ending),
        _ => false,
    }
}

fn is_base(step: Step) -> bool
    ensures { result ≡ is_base step }
{
    matches!(step, Step::Base(_))
}

/// The part that the walk begins at, where it is sought.
fn itself(sought: bool, row: TypeRow) -> Option<Found>
    ensures { result ≡ (if sought then Some (record { number = 0; row = row }) else None) }
{
    if sought {
        Some(Found { number: 0, row })
    } else {
        None
    }
}

/// A part that was counted from a part with that number.
fn counted_on(found: Option<Found>, from: u64) -> Option<Found>
    requires { IfSome found (λ x. from + x.number < 2 ^ 64) }
    ensures { result ≡ option_map (behind from) found }
{
    match found {
        None => None,
        Some(found) => Some(Found {
            number: from + found.number,
            row: found.row,
        }),
    }
}

fn first_of(a: Option<Found>, b: Option<Found>) -> Option<Found>
    ensures { result ≡ option_or a b }
{
    match a {
        None => b,
        Some(found) => Some(found),
    }
}

/// What encloses a part with a number, counted from a shape with number `base`.
pub fn chain_in(
    types: &Types,
    row: TypeRow,
    shape: &Shape,
    view: View<'_>,
    base: u64,
    rest: u64,
) -> Chain
    requires few { base + rest < 2 ^ 62 }
    requires small { Small (form_of shape.now) }
    requires form { IsForm types.now (form_of shape.now) row.kind }
    ensures gives { (fs : List Form) (ss : List StepOf) → steps_at (form_of shape.now) rest ≡ Some ss → IsChain types.now (form_of shape.now) row (shown view.entry.there (tree_of (form_of shape.now) (cells_of fs view.entry.contents.now) base)) view.entry.opaque ss result }
    ensures within { IfSome result.found (λ x. x.number ≤ rest) }
{
    let alive = deciding_at(shape, view.contents.phase(base));
    let decides = either(view.opaque, both(view.there, alive));
    if rest == 0 {
        return Chain {
            bases: true,
            found: itself(decides, row),
        };
    }
    match way_of(shape, rest - 1) {
        None => Chain {
            bases: false,
            found: None,
        },
        Some(way) => {
            let opens = open_at(shape, view.contents.member(base), way.step);
            let view = View {
                contents: view.contents,
                opaque: view.opaque,
                there: both(view.there, opens),
            };
            let part = part_row(types, row, way.step);
            let inner = chain_in(
                types,
                part,
                way.shape,
                view,
                base + way.from,
                rest - way.from,
            );
            let bases = both(is_base(way.step), inner.bases);
            let here = itself(both(bases, decides), row);
            Chain {
                bases,
                found: first_of(here, counted_on(inner.found, way.from)),
            }
        }
    }
}
