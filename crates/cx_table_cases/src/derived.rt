//! Derived classes: by how many ways a class leads to another, and by which steps.
ghost use Rattle.std.specs.Prelude.{◌<◌, length};

use crate::make::{NO_PARTS, Parts, define};
use crate::stop::Stop;
use cx_base::List;
use cx_derived::{Ways, derived_by, steps};
use cx_types::{ClassId, Types};
use std::alloc::Global;
use std::io::Write;

/// The steps of one of the ways from a class to another, if there is one.
#[tactic(auto, using(crate::proofs::Counted::one_way, crate::proofs::Counted::several_ways))]
fn way(
    alloc: Global,
    types: &Types,
    class: ClassId,
    base: ClassId,
) -> Result<Option<List<u32>>, Stop>
    requires { class.0 < length types.now.classes }
{
    match derived_by(types, class, base) {
        Ways::None => Ok(None),
        Ways::One => Ok(Some(steps(alloc, types, class, base)?)),
        Ways::Several => Ok(Some(steps(alloc, types, class, base)?)),
    }
}

/// Tells the ways from a class to another, and the steps of one of them.
fn tell_ways<W: Write>(
    alloc: Global,
    types: &Types,
    class: ClassId,
    base: ClassId,
    out: &mut W,
) -> Result<(), Stop> {
    if !types.has_class(class) {
        return Err(Stop::NotAsked);
    }
    let ways = derived_by(types, class, base);
    write!(out, "from class {} to class {}: {ways:?}", class.0, base.0)?;
    match way(alloc, types, class, base)? {
        Some(steps) => writeln!(out, ", by {:?}", steps.as_slice())?,
        None => writeln!(out)?,
    }
    Ok(())
}

/// Tells derived classes.
pub fn tell<W: Write>(alloc: Global, out: &mut W) -> Result<(), Stop> {
    writeln!(out, "== derived classes")?;
    let mut types = Types::new(alloc)?;
    for (name, bases) in [
        ("Root", [].as_slice()),
        ("Left", [ClassId(0)].as_slice()),
        ("Right", [ClassId(0)].as_slice()),
        ("Both", [ClassId(1), ClassId(2)].as_slice()),
        ("Open", [ClassId(9)].as_slice()),
    ] {
        let parts = Parts {
            name,
            bases,
            ..NO_PARTS
        };
        define(alloc, &mut types, &parts, out)?;
    }
    for (class, base) in [
        (3, 0),
        (3, 1),
        (3, 2),
        (3, 3),
        (3, 4),
        (1, 0),
        (1, 2),
        (0, 1),
        (4, 4),
        (4, 0),
        (3, 9),
    ] {
        tell_ways(alloc, &types, ClassId(class), ClassId(base), out)?;
    }
    Ok(())
}
