//! The forms of members, bases and elements.
ghost use Rattle.std.specs.Prelude.{◌≡◌, true, IfOk, Some};
ghost use Rattle.cx_type_defs.specs.declared.ids.Step.TheVariants as step;
ghost use Rattle.cx_state.specs.Forms.{HoldsValue};
ghost use Rattle.cx_store.specs.Stores.{IsClassAt, IsUnionAt};
ghost use Rattle.cx_store_cases.specs.Seats.{IsSeat, IsClassSeat, HasPart, HasElems, IsExact, IsLed};

use crate::seat::{Seat, told};
use crate::stop::Stop;
use cx_store::Store;
use cx_types::{ClassId, ClassKey, TypeKind, Types};

/// The class of what is at a place.
pub(crate) fn class_of<S: Store>(
    store: &S,
    types: &Types,
    at: Seat<S::Place>,
) -> Result<ClassId, Stop>
    requires fits { S.fits store.now types.now }
    requires seat { IsSeat types.now (S.objects store.now) (S.path store.now) at }
    ensures { IfOk result (λ c. IsClassSeat types.now at.kind c) }
{
    let kind = told(at.kind)?;
    match kind {
        TypeKind::Class(class) => Ok(class),
        _ => Err(Stop::NotAsked),
    }
}

/// The form of a member, where there is one.
pub(crate) fn field_kind<S: Store>(
    store: &S,
    types: &Types,
    at: Seat<S::Place>,
    index: u32,
) -> Result<TypeKind, Stop>
    requires fits { S.fits store.now types.now }
    requires seat { IsSeat types.now (S.objects store.now) (S.path store.now) at }
    ensures { IfOk result (λ k. HasPart types.now (S.objects store.now) (S.path store.now) at (step.Field index) k) }
{
    let class = class_of(store, types, at)?;
    if index >= types.fields(class) {
        return Err(Stop::NotAsked);
    }
    Ok(types.row(types.field_at(class, index)).kind)
}

/// The form of a base, where there is one.
pub(crate) fn base_kind<S: Store>(
    store: &S,
    types: &Types,
    at: Seat<S::Place>,
    index: u32,
) -> Result<TypeKind, Stop>
    requires fits { S.fits store.now types.now }
    requires seat { IsSeat types.now (S.objects store.now) (S.path store.now) at }
    ensures { IfOk result (λ k. HasPart types.now (S.objects store.now) (S.path store.now) at (step.Base index) k) }
{
    let class = class_of(store, types, at)?;
    if index >= types.bases(class) {
        return Err(Stop::NotAsked);
    }
    Ok(TypeKind::Class(types.base_at(class, index)))
}

/// The form of an array's elements, where it has at least so many.
pub(crate) fn elem_kind<S: Store>(
    store: &S,
    types: &Types,
    at: Seat<S::Place>,
    index: u32,
) -> Result<TypeKind, Stop>
    requires fits { S.fits store.now types.now }
    requires seat { IsSeat types.now (S.objects store.now) (S.path store.now) at }
    ensures { IfOk result (λ k. HasElems types.now (S.objects store.now) (S.path store.now) at index k) }
{
    let kind = told(at.kind)?;
    match kind {
        TypeKind::Array(of, count) => {
            if index > count {
                return Err(Stop::NotAsked);
            }
            Ok(types.row(of).kind)
        }
        _ => Err(Stop::NotAsked),
    }
}

/// The class of what is at a place, which is no union.
pub(crate) fn plain_class<S: Store>(
    store: &S,
    types: &Types,
    at: Seat<S::Place>,
) -> Result<ClassId, Stop>
    requires fits { S.fits store.now types.now }
    requires seat { IsSeat types.now (S.objects store.now) (S.path store.now) at }
    ensures { IfOk result (λ _. IsClassAt types.now (S.objects store.now) (S.path store.now at.place)) }
{
    let class = class_of(store, types, at)?;
    match types.key(class) {
        ClassKey::Union => Err(Stop::NotAsked),
        ClassKey::Struct => Ok(class),
        ClassKey::Class => Ok(class),
    }
}

/// The union that is at a place.
pub(crate) fn union_of<S: Store>(
    store: &S,
    types: &Types,
    at: Seat<S::Place>,
) -> Result<ClassId, Stop>
    requires fits { S.fits store.now types.now }
    requires seat { IsSeat types.now (S.objects store.now) (S.path store.now) at }
    ensures { IfOk result (λ _. IsUnionAt types.now (S.objects store.now) (S.path store.now at.place)) }
{
    let class = class_of(store, types, at)?;
    match types.key(class) {
        ClassKey::Union => Ok(class),
        ClassKey::Struct => Err(Stop::NotAsked),
        ClassKey::Class => Err(Stop::NotAsked),
    }
}

/// Whether what is of this form is one value.
pub(crate) fn is_scalar(kind: TypeKind) -> bool
    ensures { result ≡ true → HoldsValue kind }
{
    !matches!(
        kind,
        TypeKind::Void | TypeKind::Array(_, _) | TypeKind::Class(_)
    )
}

/// The form of what a pointer leads to, where it tells that form exactly.
pub(crate) fn exact(kind: TypeKind) -> Option<TypeKind>
    ensures { IsExact kind result }
{
    match kind {
        TypeKind::Int(ty) => Some(TypeKind::Int(ty)),
        TypeKind::Class(class) => Some(TypeKind::Class(class)),
        _ => None,
    }
}

/// The type that a pointer or reference leads to.
pub(crate) fn pointee<S: Store>(
    store: &S,
    types: &Types,
    at: Seat<S::Place>,
) -> Result<TypeKind, Stop>
    requires fits { S.fits store.now types.now }
    requires seat { IsSeat types.now (S.objects store.now) (S.path store.now) at }
    ensures { IfOk result (λ k. IsLed types.now at.kind k) }
{
    let kind = told(at.kind)?;
    match kind {
        TypeKind::Pointer(to) => Ok(types.row(to).kind),
        TypeKind::Reference(to) => Ok(types.row(to).kind),
        _ => Err(Stop::NotAsked),
    }
}
