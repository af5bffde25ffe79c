//! What nothing may write to ([dcl.type.cv], [basic.life]).

ghost use Rattle.std.specs.Prelude.{◌≡◌, ◌+◌, ◌^◌, ◌<◌, ◌&&◌, not, length, List, Some, IsSome};
ghost use Rattle.cx_type_defs.specs.declared.ids.Step.{Step as StepOf};
ghost use Rattle.cx_state.specs.Places.{row_part};
ghost use Rattle.cx_state.specs.Conditions.{sealed, is_sealed};
ghost use Rattle.cx_shapes.specs.Forms.{Form, Small, form_of, steps_at};
ghost use Rattle.cx_shapes.specs.Contents.{Cell, tree_of};
ghost use Rattle.cx_shapes.specs.Kinds.{IsForm};
ghost use Rattle.cx_records.specs.Records.{cells_of};
ghost use Rattle.cx_records.specs.Checks.{is_nothing};
ghost use Rattle.cx_records.specs.Seals.{holds_fast, is_alive_phase};

use crate::record::Contents;
use crate::walk::{both, either, open_at};
use cx_shapes::{Shape, way_of};
use cx_state::{Phase, Scalar};
use cx_types::{Step, TypeKind, TypeRow, Types};

/// The type of the part that a step leads to, which there must be.
pub fn part_row(types: &Types, row: TypeRow, step: Step) -> TypeRow
    requires { IsSome (row_part types.now row step) }
    ensures { row_part types.now row step ≡ Some result }
{
    match (row.kind, step) {
        (TypeKind::Array(of, _), Step::Elem(_)) => {
            let element = types.row(of);
            TypeRow {
                kind: element.kind,
                konst: row.konst || element.konst,
            }
        }
        (TypeKind::Class(class), Step::Base(index)) => TypeRow {
            kind: TypeKind::Class(types.base_at(class, index)),
            konst: false,
        },
        (TypeKind::Class(class), Step::Field(index)) => types.row(types.field_at(class, index)),
        _ => unreachable!(),
    }
}

fn has_value<P: Drop>(value: Scalar<P>) -> bool
    ensures { result ≡ not (is_nothing value) }
{
    !matches!(value, Scalar::Indeterminate)
}

fn is_alive(phase: Phase) -> bool
    ensures { result ≡ is_alive_phase phase }
{
    matches!(phase, Phase::Alive)
}

/// Whether a class is alive, or a scalar has a value.
fn holds_at(shape: &Shape, contents: &Contents, base: u64) -> bool
    ensures { (fs : List Form) → result ≡ holds_fast (form_of shape.now) (cells_of fs contents.now base) }
{
    match shape {
        Shape::Leaf => has_value(contents.value(base)),
        Shape::Class(..) => is_alive(contents.phase(base)),
        _ => false,
    }
}

/// Whether a const part on the way to a number, or the one there, is a class that is alive, or a scalar with a value.
pub fn sealed_at(
    types: &Types,
    row: TypeRow,
    shape: &Shape,
    contents: &Contents,
    base: u64,
    rest: u64,
) -> bool
    requires few { base + rest < 2 ^ 62 }
    requires small { Small (form_of shape.now) }
    requires form { IsForm types.now (form_of shape.now) row.kind }
    ensures { (fs : List Form) (ss : List StepOf) → steps_at (form_of shape.now) rest ≡ Some ss → result ≡ sealed types.now row (tree_of (form_of shape.now) (cells_of fs contents.now) base) ss }
{
    let here = both(row.konst, holds_at(shape, contents, base));
    if rest == 0 {
        return here;
    }
    match way_of(shape, rest - 1) {
        None => here,
        Some(way) => {
            let there = open_at(shape, contents.member(base), way.step);
            let part = part_row(types, row, way.step);
            let inner = sealed_at(
                types,
                part,
                way.shape,
                contents,
                base + way.from,
                rest - way.from,
            );
            either(here, both(there, inner))
        }
    }
}
