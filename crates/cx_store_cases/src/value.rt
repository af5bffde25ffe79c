//! What a case writes to a scalar or a reference.
ghost use Rattle.std.specs.Prelude.{◌≡◌, ◌<◌, ◌≤◌, true, IfOk, Some};
ghost use Rattle.cx_ints.specs.Ranges.{Fits};
ghost use Rattle.cx_state.specs.declared.kind.Scalar.TheVariants as scalar;
ghost use Rattle.cx_store.specs.Stores.{seen, IsScalarAt, MayTake};
ghost use Rattle.cx_store_cases.specs.Seats.{IsSeat, IsBelow, MayLead, Stands};

use crate::parts::pointee;
use crate::seat::{Desk, Seat, find, told};
use crate::stop::Stop;
use crate::words::integer;
use cx_ints::{Int, IntType, fits};
use cx_store::{Scalar, Store};
use cx_types::{TypeKind, Types};

fn int_of(ty: IntType, text: &str) -> Result<Int, Stop>
    ensures { IfOk result (λ i. (i.ty ≡ ty) × Fits i.ty i.value) }
{
    let value = integer(text)?;
    if fits(value, ty) {
        Ok(Int { ty, value })
    } else {
        Err(Stop::NotAsked)
    }
}

/// Whether a pointer to this form may lead to a place of a form that is told.
fn may_lead(to: TypeKind, found: TypeKind) -> bool
    ensures { result ≡ true → MayLead to found }
{
    match to {
        TypeKind::Void => true,
        TypeKind::Class(class) => found == TypeKind::Class(class),
        TypeKind::Int(ty) => found == TypeKind::Int(ty),
        _ => false,
    }
}

/// The place that a pointer or reference takes: a place's name behind `&`.
fn place_of<S: Store>(
    store: &S,
    types: &Types,
    desk: &Desk<S::Place>,
    at: Seat<S::Place>,
    text: &str,
) -> Result<S::Place, Stop>
    requires stands { Stands (S.fits store.now types.now) types.now (S.objects store.now) (S.path store.now) desk.now }
    requires seat { IsSeat types.now (S.objects store.now) (S.path store.now) at }
    ensures { IfOk result (λ p. MayTake types.now (S.objects store.now) (S.path store.now at.place) (scalar.Place (S.path store.now p))) }
{
    let Some(name) = text.strip_prefix('&') else {
        return Err(Stop::NotAsked);
    };
    let to = pointee(store, types, at)?;
    let seat = find(store, types, desk, name)?;
    let found = told(seat.kind)?;
    if may_lead(to, found) {
        Ok(seat.place)
    } else {
        Err(Stop::NotAsked)
    }
}

/// The value that a word is, as the scalar or reference at a place takes it: a place's name behind `&`, `null`, `none`
/// or a whole number.
pub(crate) fn value_of<S: Store>(
    store: &S,
    types: &Types,
    desk: &Desk<S::Place>,
    at: Seat<S::Place>,
    text: &str,
) -> Result<Scalar<S::Place>, Stop>
    requires stands { Stands (S.fits store.now types.now) types.now (S.objects store.now) (S.path store.now) desk.now }
    requires seat { IsSeat types.now (S.objects store.now) (S.path store.now) at }
    ensures scalar { IfOk result (λ _. IsScalarAt types.now (S.objects store.now) (S.path store.now at.place)) }
    ensures takes { IfOk result (λ v. MayTake types.now (S.objects store.now) (S.path store.now at.place) (seen (S.path store.now) v)) }
{
    let kind = told(at.kind)?;
    match (kind, text) {
        (TypeKind::Int(_) | TypeKind::Pointer(_), "none") => Ok(Scalar::Indeterminate),
        (TypeKind::Nullptr | TypeKind::Pointer(_), "null") => Ok(Scalar::Null),
        (TypeKind::Int(ty), _) => {
            let int = int_of(ty, text)?;
            Ok(Scalar::Int(int))
        }
        (TypeKind::Pointer(_) | TypeKind::Reference(_), _) => {
            let place = place_of(store, types, desk, at, text)?;
            Ok(Scalar::Place(place))
        }
        _ => Err(Stop::NotAsked),
    }
}

/// A number below which lie the objects that others hold places in, where this value is written too.
pub(crate) fn mark_for<S: Store>(
    store: &S,
    types: &Types,
    at: Seat<S::Place>,
    value: Scalar<S::Place>,
    safe: u32,
) -> Result<u32, Stop>
    requires seat { IsSeat types.now (S.objects store.now) (S.path store.now) at }
    requires takes { MayTake types.now (S.objects store.now) (S.path store.now at.place) (seen (S.path store.now) value) }
    ensures more { IfOk result (λ m. safe ≤ m) }
    ensures below { IfOk result (λ m. IsBelow m (seen (S.path store.now) value)) }
{
    match value {
        Scalar::Place(place) => match store.root(place).number.checked_add(1) {
            Some(mark) => Ok(mark.max(safe)),
            None => Err(Stop::NotAsked),
        },
        _ => Ok(safe),
    }
}
