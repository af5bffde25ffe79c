//! The shapes of types.

ghost use Rattle.std.specs.Prelude.{◌≡◌, ℕ, ◌<◌, ◌≤◌, ◌^◌, true, [], ◌∷◌, ◌++◌, map, length, slice_get, Option, Some, None, is_some, IfOk, OnOk, IsSome};
ghost use Rattle.cx_type_defs.specs.Tables.{Tables, body_at, base_of, field_of};
ghost use Rattle.cx_type_defs.specs.Questions.{OfType, OfClass as ClassPart, looked, kind_answer, class_answer, cells_of};
ghost use Rattle.cx_type_defs.specs.declared.kind.TypeKind.TheVariants as Kind;
ghost use Rattle.cx_type_defs.specs.declared.ids.ClassId.{ClassId};
ghost use Rattle.cx_type_defs.specs.declared.decl.Field.{Field};
ghost use Rattle.cx_shapes.specs.Forms.{Row, form_of, told, size, sizes, AreListed};
ghost use Rattle.cx_shapes.specs.Kinds.{IsForm, AreForms, OfRow, OfBody, base_kinds, field_kinds, IsTold};

use crate::shape::{Shape, size_of};
use cx_base::Memory;
use cx_types::{ClassId, ClassKey, TypeId, TypeKind, Types};
use sqlite_items::{Boxed, Items};
use std::alloc::Global;

/// The shape of a type whose cells are told within so many levels. `Memory` also comes for one of 2^62 parts and more.
#[cycle(build)]
pub fn type_shape(alloc: Global, types: &Types, ty: TypeId, levels: u32) -> Result<Shape, Memory>
    requires { IsTold types.now levels (OfType ty) }
    ensures few { IfOk result (λ s. size (form_of s) < 2 ^ 62) }
    ensures form { IfOk result (λ s. OfRow (IsForm types.now (form_of s)) (slice_get types.now.rows ty.0)) }
{
    if levels == 0 {
        return Err(Memory);
    }
    kind_shape(alloc, types, types.row(ty).kind, levels - 1)
}

#[cycle(build)]
fn class_shape(alloc: Global, types: &Types, class: ClassId, levels: u32) -> Result<Shape, Memory>
    requires { IsTold types.now levels (ClassPart class) }
    ensures few { IfOk result (λ s. size (form_of s) < 2 ^ 62) }
    ensures form { IfOk result (λ s. IsForm types.now (form_of s) (Kind.Class class)) }
{
    if levels == 0 {
        return Err(Memory);
    }
    body_shape(alloc, types, class, levels - 1)
}

#[cycle(build)]
fn kind_shape(alloc: Global, types: &Types, kind: TypeKind, levels: u32) -> Result<Shape, Memory>
    requires { is_some (kind_answer cells_of types.now (looked cells_of types.now levels) kind) ≡ true }
    ensures few { IfOk result (λ s. size (form_of s) < 2 ^ 62) }
    ensures form { IfOk result (λ s. IsForm types.now (form_of s) kind) }
{
    match kind {
        TypeKind::Array(of, count) => match type_shape(alloc, types, of, levels) {
            Err(memory) => Err(memory),
            Ok(element) => small_row(alloc, count, element),
        },
        TypeKind::Class(class) => body_shape(alloc, types, class, levels),
        _ => Ok(Shape::Leaf),
    }
}

/// So many of a shape.
pub fn row_shape(alloc: Global, count: u32, element: Shape) -> Result<Shape, Memory>
    ensures { IfOk result (λ s. form_of s ≡ Row count (form_of element)) }
{
    match Boxed::new(alloc, element) {
        Err(_) => Err(Memory),
        Ok(element) => Ok(Shape::Row(count, element)),
    }
}

/// So many of a shape, unless they are too many.
fn small_row(alloc: Global, count: u32, element: Shape) -> Result<Shape, Memory>
    requires { size (form_of element) < 2 ^ 62 }
    ensures few { IfOk result (λ s. size (form_of s) < 2 ^ 62) }
    ensures form { IfOk result (λ s. form_of s ≡ Row count (form_of element)) }
{
    if 1 + u128::from(count) * u128::from(size_of(&element)) < (1 << 62) {
        row_shape(alloc, count, element)
    } else {
        Err(Memory)
    }
}

/// Shapes one behind the other, where each ends, and how many parts they have.
#[derive(Drop)]
struct Listed {
    shapes: Items<Shape>,
    ends: Items<u64>,
    parts: u64,
}

impl Listed {
    fn new(alloc: Global) -> Listed
        ensures none { result.shapes ≡ [] }
        ensures listed { AreListed result.shapes result.ends result.parts }
    {
        Listed {
            shapes: Items::new(alloc),
            ends: Items::new(alloc),
            parts: 0,
        }
    }

    fn add(&mut self, shape: Shape) -> Result<(), Memory>
        requires listed { AreListed self.old.shapes self.old.ends self.old.parts }
        requires few { size (form_of shape) < 2 ^ 62 }
        ensures ok { OnOk result (self.new.shapes ≡ self.old.shapes ++ shape ∷ []) }
        ensures listed { OnOk result (AreListed self.new.shapes self.new.ends self.new.parts) }
    {
        let end = self.parts + size_of(&shape);
        if end >= (1 << 62) {
            return Err(Memory);
        }
        match self.shapes.push(shape) {
            Err(_) => Err(Memory),
            Ok(()) => match self.ends.push(end) {
                Err(_) => Err(Memory),
                Ok(()) => {
                    self.parts = end;
                    Ok(())
                }
            },
        }
    }
}

#[cycle(build)]
fn body_shape(alloc: Global, types: &Types, class: ClassId, levels: u32) -> Result<Shape, Memory>
    requires { is_some (class_answer cells_of (looked cells_of types.now levels) (slice_get types.now.classes class.0)) ≡ true }
    ensures few { IfOk result (λ s. size (form_of s) < 2 ^ 62) }
    ensures form { IfOk result (λ s. IsForm types.now (form_of s) (Kind.Class class)) }
{
    let bases = base_shapes(alloc, types, class, levels)?;
    let members = field_shapes(alloc, types, class, levels)?;
    if 1 + bases.parts + members.parts >= (1 << 62) {
        return Err(Memory);
    }
    types.sound();
    match types.key(class) {
        ClassKey::Union => Ok(Shape::Union(members.shapes, members.ends)),
        _ => Ok(Shape::Class(bases.shapes, bases.ends, members.shapes, members.ends)),
    }
}

#[cycle(build)]
fn base_shapes(alloc: Global, types: &Types, class: ClassId, levels: u32) -> Result<Listed, Memory>
    requires complete { IsSome (body_at types.now class) }
    requires told { (i : ℕ) (c : ClassId) → base_of types.now class i ≡ Some c → IsTold types.now levels (ClassPart c) }
    ensures counted { IfOk result (λ l. (l.parts ≡ sizes (told l.ends (map form_of l.shapes))) × (l.parts < 2 ^ 62)) }
    ensures forms { IfOk result (λ l. OfBody (λ b. AreForms types.now (told l.ends (map form_of l.shapes)) (base_kinds b)) (body_at types.now class)) }
{
    let mut listed = Listed::new(alloc);
    for i in 0..types.bases(class) {
        let shape = class_shape(alloc, types, types.base_at(class, i), levels)?;
        listed.add(shape)?;
    }
    Ok(listed)
}

#[cycle(build)]
fn field_shapes(alloc: Global, types: &Types, class: ClassId, levels: u32) -> Result<Listed, Memory>
    requires complete { IsSome (body_at types.now class) }
    requires told { (i : ℕ) (f : Field) → field_of types.now class i ≡ Some f → IsTold types.now levels (OfType f.ty) }
    ensures counted { IfOk result (λ l. (l.parts ≡ sizes (told l.ends (map form_of l.shapes))) × (l.parts < 2 ^ 62)) }
    ensures forms { IfOk result (λ l. OfBody (λ b. AreForms types.now (told l.ends (map form_of l.shapes)) (field_kinds types.now b)) (body_at types.now class)) }
{
    let mut listed = Listed::new(alloc);
    for i in 0..types.fields(class) {
        let shape = type_shape(alloc, types, types.field_at(class, i), levels)?;
        listed.add(shape)?;
    }
    Ok(listed)
}
