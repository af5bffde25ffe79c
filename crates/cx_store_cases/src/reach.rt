//! The places that one comes to from a place.
ghost use Rattle.std.specs.Prelude.{◌≡◌, Ok, IfOk};
ghost use Rattle.cx_state.specs.Forms.{KnowsIn};
ghost use Rattle.cx_store.specs.Stores.{seen, MayTake};
ghost use Rattle.cx_store_cases.specs.Seats.{IsSeat, Stands};

use crate::parts::{base_kind, elem_kind, exact, field_kind, is_scalar, pointee};
use crate::sample::Sample;
use crate::seat::{Desk, Seat, find, told};
use crate::stop::Stop;
use crate::words::{integer, number, word};
use cx_base::Rule;
use cx_store::{Scalar, Store};
use cx_types::{TypeKind, Types};

/// The place that a call gives, with its name and form.
fn placed<P: Copy + Drop>(
    answer: Result<P, Rule>,
    name: u8,
    kind: Option<TypeKind>,
) -> Result<Seat<P>, Stop>
    ensures place { IfOk result (λ s. answer ≡ Ok s.place) }
    ensures kind { IfOk result (λ s. s.kind ≡ kind) }
{
    match answer {
        Ok(place) => Ok(Seat { name, place, kind }),
        Err(rule) => Err(Stop::Rule(rule)),
    }
}

/// The value of the scalar at a place.
pub(crate) fn load_at<S: Store>(
    store: &S,
    types: &Types,
    at: Seat<S::Place>,
) -> Result<Scalar<S::Place>, Stop>
    requires fits { S.fits store.now types.now }
    requires seat { IsSeat types.now (S.objects store.now) (S.path store.now) at }
    ensures known { IfOk result (λ v. KnowsIn types.now (S.objects store.now) (seen (S.path store.now) v)) }
    ensures holds { IfOk result (λ v. MayTake types.now (S.objects store.now) (S.path store.now at.place) (seen (S.path store.now) v)) }
{
    let kind = told(at.kind)?;
    if !is_scalar(kind) {
        return Err(Stop::NotAsked);
    }
    match store.load(types, at.place) {
        Ok(value) => Ok(value),
        Err(rule) => Err(Stop::Rule(rule)),
    }
}

/// The place that the pointer or reference at a place leads to.
fn led_to<S: Store>(
    store: &S,
    types: &Types,
    at: Seat<S::Place>,
    name: u8,
) -> Result<Seat<S::Place>, Stop>
    requires fits { S.fits store.now types.now }
    requires seat { IsSeat types.now (S.objects store.now) (S.path store.now) at }
    ensures { IfOk result (λ s. IsSeat types.now (S.objects store.now) (S.path store.now) s) }
{
    let kind = pointee(store, types, at)?;
    let value = load_at(store, types, at)?;
    match value {
        Scalar::Place(place) => Ok(Seat {
            name,
            place,
            kind: exact(kind),
        }),
        _ => Err(Stop::NotAsked),
    }
}

/// A call that gives a place: `VERB NEW FROM ..`.
pub(crate) fn reach<S: Store>(
    sample: &Sample,
    store: &S,
    desk: &Desk<S::Place>,
    name: u8,
    words: &[&str],
) -> Result<Seat<S::Place>, Stop>
    requires { Stands (S.fits store.now sample.now.types) sample.now.types (S.objects store.now) (S.path store.now) desk.now }
    ensures { IfOk result (λ s. IsSeat sample.now.types (S.objects store.now) (S.path store.now) s) }
{
    let types = &sample.types;
    let from = find(store, types, desk, word(words, 2))?;
    let last = word(words, 3);
    match word(words, 0) {
        "field" => {
            let index = number(last)?;
            let kind = field_kind(store, types, from, index)?;
            placed(store.field(types, from.place, index), name, Some(kind))
        }
        "base" => {
            let index = number(last)?;
            let kind = base_kind(store, types, from, index)?;
            placed(store.base(types, from.place, index), name, Some(kind))
        }
        "elem" => {
            let index = number(last)?;
            let kind = elem_kind(store, types, from, index)?;
            placed(store.elem(types, from.place, index), name, Some(kind))
        }
        "add" => {
            let by = integer(last)?;
            placed(store.add(types, from.place, by), name, from.kind)
        }
        "outer" => {
            let class = sample.class_named(last)?;
            placed(
                store.outer(types, from.place, class),
                name,
                Some(TypeKind::Class(class)),
            )
        }
        _ => led_to(store, types, from, name),
    }
}
