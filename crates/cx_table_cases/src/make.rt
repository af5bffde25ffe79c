//! Makes types and classes, where what the calls ask for holds.
ghost use Rattle.std.specs.Prelude.{◌≡◌, ℕ, ◌<◌, ◌≤◌, true, [], length, map, slice_get, sum, Some, IfOk};
ghost use Rattle.cx_type_defs.specs.Bodies.{IsFit, FitsClass};
ghost use Rattle.cx_type_defs.specs.Refusals.{IsKnownBody, IsIncomplete};
ghost use Rattle.cx_type_defs.specs.Slots.{base_slots, slot_count};

use crate::stop::Stop;
use cx_base::{List, Mark, Span, Text};
use cx_types::{
    ClassBody, ClassFlags, ClassId, ClassKey, EnumId, Field, FuncId, TypeId, TypeKind, TypeRow,
    Types,
};
use std::alloc::Global;
use std::io::Write;

const PLACE: Mark = Mark {
    byte: 0,
    line: 1,
    col: 1,
};

const FLAGS: ClassFlags = ClassFlags {
    aggregate: true,
    constexpr_ctor: false,
    constexpr_dtor: true,
    trivial_ctor: true,
    trivial_copy: true,
    trivial_dtor: true,
    virtual_dtor: false,
    has_virtual: false,
};

/// What a class is made of.
#[derive(Clone, Copy)]
pub struct Parts<'a> {
    pub name: &'a str,
    pub key: ClassKey,
    pub bases: &'a [ClassId],
    pub members: &'a [TypeId],
    /// Functions by their numbers.
    pub slots: &'a [u32],
    pub pures: &'a [u32],
}

/// A class of no bases, members and functions.
pub const NO_PARTS: Parts<'static> = Parts {
    name: "",
    key: ClassKey::Struct,
    bases: &[],
    members: &[],
    slots: &[],
    pures: &[],
};

/// Fewer than a thousand of each.
pub fn has_room(types: &Types) -> bool
    ensures rows { result ≡ true → length types.now.rows ≤ 1000 }
    ensures classes { result ≡ true → length types.now.classes ≤ 1000 }
    ensures enums { result ≡ true → length types.now.enums ≤ 1000 }
{
    if types.has_type(TypeId(1000)) {
        return false;
    }
    if types.has_class(ClassId(1000)) {
        return false;
    }
    if types.has_enum(EnumId(1000)) {
        return false;
    }
    true
}

/// The number of a type.
pub fn put(types: &mut Types, kind: TypeKind, konst: bool) -> Result<TypeId, Stop> {
    let row = TypeRow { kind, konst };
    if !has_room(types) || !types.knows(kind) || !types.is_normal(row) {
        return Err(Stop::NotAsked);
    }
    match types.intern(row) {
        Ok(id) => Ok(id),
        Err(answer) => Err(Stop::Type(answer)),
    }
}

fn functions(alloc: Global, numbers: &[u32]) -> Result<List<FuncId>, Stop> {
    let mut functions = List::new(alloc);
    for number in numbers {
        functions.push(FuncId(*number))?;
    }
    Ok(functions)
}

/// A member with the name `m`.
fn member(alloc: Global, ty: TypeId) -> Result<Field, Stop> {
    Ok(Field {
        name: Text::from_slice(alloc, b"m")?,
        ty,
        at: Span {
            start: PLACE,
            end: PLACE,
        },
        init: Some(FuncId(7)),
    })
}

fn body(alloc: Global, parts: &Parts) -> Result<ClassBody, Stop> {
    let mut fields = List::new(alloc);
    for ty in parts.members {
        fields.push(member(alloc, *ty)?)?;
    }
    Ok(ClassBody {
        bases: List::from_vec(Vec::from_slice(alloc, parts.bases)?),
        fields,
        slots: functions(alloc, parts.slots)?,
        pures: functions(alloc, parts.pures)?,
        flags: ClassFlags {
            has_virtual: !parts.slots.is_empty(),
            ..FLAGS
        },
    })
}

/// A new class, incomplete.
fn begin(alloc: Global, types: &mut Types, parts: &Parts) -> Result<ClassId, Stop>
    ensures { IfOk result (λ c. IsIncomplete (slice_get types.new.classes c.0)) }
{
    let name = Text::from_slice(alloc, parts.name.as_bytes())?;
    if !has_room(types) {
        return Err(Stop::NotAsked);
    }
    match types.class_begin(name, parts.key) {
        Ok(class) => Ok(class),
        Err(_) => Err(Stop::Memory),
    }
}

fn end(types: &mut Types, class: ClassId, body: ClassBody) -> Result<(), Stop>
    requires { IsIncomplete (slice_get types.old.classes class.0) }
{
    if !may_complete(types, class, &body) {
        return Err(Stop::NotAsked);
    }
    match types.class_end(class, body) {
        Ok(()) => Ok(()),
        Err(answer) => Err(Stop::Type(answer)),
    }
}

/// A class with its type. It tells whether the class is complete, and why it isn't.
pub fn define<W: Write>(
    alloc: Global,
    types: &mut Types,
    parts: &Parts,
    out: &mut W,
) -> Result<(ClassId, TypeId), Stop> {
    let body = body(alloc, parts)?;
    let class = begin(alloc, types, parts)?;
    let ended = end(types, class, body);
    match ended {
        Ok(()) => writeln!(out, "class {} is {}, complete", class.0, parts.name)?,
        Err(stop) => writeln!(
            out,
            "class {} is {}, incomplete: {stop:?}",
            class.0, parts.name
        )?,
    }
    let ty = put(types, TypeKind::Class(class), false)?;
    Ok((class, ty))
}

fn knows_fields(types: &Types, fields: &[Field]) -> bool
    ensures { result ≡ true → (i : ℕ) (f : Field) → slice_get fields.now i ≡ Some f → f.ty.0 < length types.now.rows }
{
    for field in fields {
        if !types.has_type(field.ty) {
            return false;
        }
    }
    true
}

fn knows_bases(types: &Types, bases: &[ClassId]) -> bool
    ensures { result ≡ true → (i : ℕ) (c : ClassId) → slice_get bases.now i ≡ Some c → c.0 < length types.now.classes }
{
    for base in bases {
        if !types.has_class(*base) {
            return false;
        }
    }
    true
}

/// So many slots are enough for those of the bases.
fn has_slots(types: &Types, bases: &[ClassId], slots: usize) -> bool
    ensures { result ≡ true → sum (map (slot_count types.now) bases.now) ≤ slots }
{
    let mut left = slots;
    for base in bases {
        if !types.has_class(*base) {
            return false;
        }
        let count = types.slots(*base) as usize;
        if count > left {
            return false;
        }
        left -= count;
    }
    true
}

/// A union has no bases ([class.union]).
#[tactic(auto, using(crate::proofs::Lists::empty_list))]
fn is_alone(key: ClassKey, body: &ClassBody) -> bool
    ensures { result ≡ true → key ≡ ClassKey.Union → body.now.bases ≡ [] }
{
    match key {
        ClassKey::Union => body.bases.len() == 0,
        ClassKey::Struct => true,
        ClassKey::Class => true,
    }
}

/// A union has no bases, and a class that has virtual functions says so.
fn fits(types: &Types, key: ClassKey, body: &ClassBody) -> bool
    ensures { result ≡ true → IsFit types.now key body.now }
{
    if !is_alone(key, body) {
        return false;
    }
    if body.flags.has_virtual {
        return true;
    }
    if types.needs_virtual(body) {
        return false;
    }
    true
}

fn fits_class(types: &Types, class: ClassId, body: &ClassBody) -> bool
    ensures { result ≡ true → FitsClass types.now (slice_get types.now.classes class.0) body.now }
{
    if !types.has_class(class) {
        return false;
    }
    let key = types.key(class);
    if !fits(types, key, body) {
        return false;
    }
    true
}

fn may_complete(types: &Types, class: ClassId, body: &ClassBody) -> bool
    ensures known { result ≡ true → IsKnownBody types.now body.now }
    ensures slots { result ≡ true → base_slots types.now body.now ≤ length body.now.slots }
    ensures fits { result ≡ true → FitsClass types.now (slice_get types.now.classes class.0) body.now }
{
    knows_bases(types, body.bases.as_slice())
        && knows_fields(types, body.fields.as_slice())
        && has_slots(types, body.bases.as_slice(), body.slots.len())
        && fits_class(types, class, body)
}
