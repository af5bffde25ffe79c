//! Classes: their bases, members and virtual functions, and the sizes of their objects.

use crate::make::{NO_PARTS, Parts, define, put};
use crate::stop::Stop;
use crate::types::measure;
use cx_base::{IntType, Text};
use cx_types::{ClassId, ClassKey, FuncId, TypeId, TypeKind, Types};
use std::alloc::Global;
use std::io::Write;
use std::str;

/// The text's letters.
pub fn letters(text: &Text) -> &str {
    str::from_utf8(text.as_slice()).unwrap_or("")
}

/// Tells what a class says of itself.
fn describe<W: Write>(types: &Types, class: ClassId, out: &mut W) -> Result<(), Stop> {
    if !types.has_class(class) {
        return Err(Stop::NotAsked);
    }
    let name = letters(types.class_name(class));
    writeln!(out, "class {}: {:?} {name}", class.0, types.key(class))?;
    if !types.complete(class) {
        return Ok(());
    }
    for i in 0..types.bases(class) {
        writeln!(out, "  base {i} is class {}", types.base_at(class, i).0)?;
    }
    for i in 0..types.fields(class) {
        let name = letters(types.field_name(class, i));
        let ty = types.field_at(class, i);
        let init = types.field_init(class, i);
        let line = types.field_span(class, i).start.line;
        writeln!(
            out,
            "  member {i} is {name} of type {} in line {line}, {init:?}",
            ty.0
        )?;
    }
    let flags = types.flags(class);
    writeln!(
        out,
        "  aggregate {}, virtual functions {}, slots {}",
        flags.aggregate,
        flags.has_virtual,
        types.slots(class)
    )?;
    Ok(())
}

/// A char, an int, a pair of both, an array of five pairs, and classes of these.
fn tell_sizes<W: Write>(alloc: Global, types: &mut Types, out: &mut W) -> Result<(), Stop> {
    writeln!(out, "== sizes of classes")?;
    let small = put(types, TypeKind::Int(IntType::Char), false)?;
    let int = put(types, TypeKind::Int(IntType::Int), false)?;
    let pair = Parts {
        name: "Pair",
        members: &[small, int],
        ..NO_PARTS
    };
    let (class, pair) = define(alloc, types, &pair, out)?;
    let row = put(types, TypeKind::Array(pair, 5), false)?;
    measure(types, pair, out)?;
    measure(types, row, out)?;
    for (name, key, bases, members) in [
        ("Empty", ClassKey::Class, [].as_slice(), [].as_slice()),
        (
            "Nested",
            ClassKey::Struct,
            [].as_slice(),
            [small, pair, small].as_slice(),
        ),
        (
            "Either",
            ClassKey::Union,
            [].as_slice(),
            [small, int, row].as_slice(),
        ),
        (
            "Derived",
            ClassKey::Struct,
            [class].as_slice(),
            [int].as_slice(),
        ),
        (
            "Wrong",
            ClassKey::Union,
            [class].as_slice(),
            [int].as_slice(),
        ),
        (
            "Unknown",
            ClassKey::Struct,
            [].as_slice(),
            [TypeId(99)].as_slice(),
        ),
    ] {
        let parts = Parts {
            name,
            key,
            bases,
            members,
            ..NO_PARTS
        };
        let (class, ty) = define(alloc, types, &parts, out)?;
        describe(types, class, out)?;
        measure(types, ty, out)?;
    }
    Ok(())
}

/// Tells what the slots of a class hold, and where those of its bases stand.
fn tell_slots<W: Write>(types: &Types, class: ClassId, out: &mut W) -> Result<(), Stop> {
    if !types.has_class(class) {
        return Err(Stop::NotAsked);
    }
    for slot in 0..7 {
        let holds = types.final_overrider(class, slot);
        let first = types.base_slot(class, 0, slot);
        let second = types.base_slot(class, 1, slot);
        let third = types.base_slot(class, 2, slot);
        writeln!(
            out,
            "  slot {slot} holds {holds:?}; of base 0 it is {first:?}, of base 1 {second:?}, of base 2 {third:?}"
        )?;
    }
    Ok(())
}

/// Two classes with virtual functions, one of both that overrides 11 and 22 and adds 33, one without enough slots, one
/// of a class with virtual functions and of no slots, and one whose base is incomplete.
fn tell_virtual<W: Write>(alloc: Global, types: &mut Types, out: &mut W) -> Result<(), Stop> {
    writeln!(out, "== virtual functions")?;
    for (name, bases, slots, pures) in [
        ("First", [].as_slice(), [10, 11].as_slice(), [11].as_slice()),
        (
            "Second",
            [].as_slice(),
            [20, 21, 22].as_slice(),
            [].as_slice(),
        ),
        (
            "Both",
            [ClassId(0), ClassId(1)].as_slice(),
            [10, 31, 20, 21, 32, 33].as_slice(),
            [33].as_slice(),
        ),
        (
            "Few",
            [ClassId(0), ClassId(1)].as_slice(),
            [10, 31, 20, 21].as_slice(),
            [].as_slice(),
        ),
        (
            "Silent",
            [ClassId(2)].as_slice(),
            [].as_slice(),
            [].as_slice(),
        ),
        (
            "Late",
            [ClassId(4)].as_slice(),
            [].as_slice(),
            [44].as_slice(),
        ),
    ] {
        let parts = Parts {
            name,
            key: ClassKey::Class,
            bases,
            slots,
            pures,
            ..NO_PARTS
        };
        let (class, ty) = define(alloc, types, &parts, out)?;
        describe(types, class, out)?;
        measure(types, ty, out)?;
    }
    for class in [0, 2, 4] {
        writeln!(out, "class {class}")?;
        tell_slots(types, ClassId(class), out)?;
    }
    for function in [10, 11, 33, 44] {
        writeln!(
            out,
            "function {function} is pure: {}",
            types.is_pure(FuncId(function))
        )?;
    }
    Ok(())
}

/// Tells the classes.
pub fn tell<W: Write>(alloc: Global, out: &mut W) -> Result<(), Stop> {
    let mut types = Types::new(alloc)?;
    tell_sizes(alloc, &mut types, out)?;
    let mut types = Types::new(alloc)?;
    tell_virtual(alloc, &mut types, out)
}
