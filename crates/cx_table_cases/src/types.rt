//! Types: their numbers, their sizes, and which are refused.

use crate::make::{NO_PARTS, Parts, define, put};
use crate::stop::Stop;
use cx_base::IntType;
use cx_types::{ClassKey, TypeId, TypeKind, Types};
use std::alloc::Global;
use std::io::Write;

const SCALARS: [TypeKind; 14] = [
    TypeKind::Nullptr,
    TypeKind::Int(IntType::Bool),
    TypeKind::Int(IntType::Char),
    TypeKind::Int(IntType::SChar),
    TypeKind::Int(IntType::UChar),
    TypeKind::Int(IntType::Short),
    TypeKind::Int(IntType::UShort),
    TypeKind::Int(IntType::Int),
    TypeKind::Int(IntType::UInt),
    TypeKind::Int(IntType::Long),
    TypeKind::Int(IntType::ULong),
    TypeKind::Int(IntType::LongLong),
    TypeKind::Int(IntType::ULongLong),
    TypeKind::Void,
];

/// Tells a type's number, or why it has none.
fn number<W: Write>(
    types: &mut Types,
    kind: TypeKind,
    konst: bool,
    out: &mut W,
) -> Result<(), Stop> {
    match put(types, kind, konst) {
        Ok(id) => writeln!(out, "{kind:?}, const {konst}, is type {}", id.0)?,
        Err(stop) => writeln!(out, "{kind:?}, const {konst}, isn't taken: {stop:?}")?,
    }
    Ok(())
}

/// Tells what a type is and what its objects take.
pub fn measure<W: Write>(types: &Types, id: TypeId, out: &mut W) -> Result<(), Stop> {
    if !types.has_type(id) {
        return Err(Stop::NotAsked);
    }
    let row = types.row(id);
    let size = types.size_of(id);
    let align = types.align_of(id);
    let cells = types.cells(id);
    let literal = types.is_literal(id);
    writeln!(
        out,
        "type {} is {:?}: size {size:?}, align {align:?}, cells {cells:?}, literal {literal}",
        id.0, row.kind
    )?;
    Ok(())
}

fn tell_scalars<W: Write>(types: &mut Types, out: &mut W) -> Result<(), Stop> {
    writeln!(out, "== scalars and void")?;
    for kind in SCALARS {
        let id = put(types, kind, false)?;
        measure(types, id, out)?;
    }
    Ok(())
}

/// Types that are taken, and types that aren't, over void, int and an incomplete class.
fn tell_numbers<W: Write>(types: &mut Types, out: &mut W) -> Result<(), Stop> {
    writeln!(out, "== numbers")?;
    let void = put(types, TypeKind::Void, false)?;
    let int = put(types, TypeKind::Int(IntType::Int), false)?;
    let reference = put(types, TypeKind::Reference(int), false)?;
    for (kind, konst) in [
        (TypeKind::Int(IntType::Int), false),
        (TypeKind::Int(IntType::Int), true),
        (TypeKind::Int(IntType::Int), true),
        (TypeKind::Pointer(void), false),
        (TypeKind::Array(int, 3), false),
        (TypeKind::Array(int, 3), false),
        (TypeKind::Array(int, 4), false),
        (TypeKind::Array(void, 3), false),
        (TypeKind::Array(reference, 3), false),
        (TypeKind::Array(int, 1_073_741_824), false),
        (TypeKind::Array(int, 1_073_741_825), false),
        (TypeKind::Array(int, 0), false),
        (TypeKind::Array(int, 3), true),
        (TypeKind::Reference(void), false),
        (TypeKind::Reference(int), true),
        (TypeKind::Pointer(reference), false),
        (TypeKind::Pointer(TypeId(900)), false),
    ] {
        number(types, kind, konst, out)?;
    }
    Ok(())
}

/// Types of 512 levels are taken, and neither a pointer nor a class over them.
fn tell_levels<W: Write>(alloc: Global, types: &mut Types, out: &mut W) -> Result<(), Stop> {
    writeln!(out, "== levels")?;
    let mut last = put(types, TypeKind::Int(IntType::Char), false)?;
    for _ in 0..511 {
        last = put(types, TypeKind::Pointer(last), false)?;
    }
    measure(types, last, out)?;
    number(types, TypeKind::Pointer(last), false, out)?;
    number(types, TypeKind::Array(last, 2), false, out)?;
    let deep = Parts {
        name: "Deep",
        members: &[last],
        ..NO_PARTS
    };
    let (_, ty) = define(alloc, types, &deep, out)?;
    measure(types, ty, out)?;
    number(types, TypeKind::Pointer(ty), false, out)?;
    number(types, TypeKind::Array(ty, 2), false, out)
}

/// Unions, each of two of the one before: they reach the limit of nodes.
fn tell_nodes<W: Write>(alloc: Global, types: &mut Types, out: &mut W) -> Result<(), Stop> {
    writeln!(out, "== nodes")?;
    let mut part = put(types, TypeKind::Int(IntType::Int), false)?;
    for _ in 0..21 {
        let parts = Parts {
            name: "a union",
            key: ClassKey::Union,
            members: &[part, part],
            ..NO_PARTS
        };
        part = define(alloc, types, &parts, out)?.1;
    }
    Ok(())
}

/// Tells the types.
pub fn tell<W: Write>(alloc: Global, out: &mut W) -> Result<(), Stop> {
    let mut types = Types::new(alloc)?;
    tell_scalars(&mut types, out)?;
    tell_numbers(&mut types, out)?;
    tell_levels(alloc, &mut types, out)?;
    tell_nodes(alloc, &mut types, out)
}
