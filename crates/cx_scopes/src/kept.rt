//! What is kept of the classes and enumerations that were entered, and of the types that were named.
ghost use Rattle.std.specs.Prelude.{◌≡◌, ◌<◌, OnOk, OnErr};
ghost use Rattle.indexmap.specs.IndexMap.{spare};
ghost use Rattle.cx_scopes.specs.Steps.{with_class, with_enum, types_with};

use crate::kinds::{Entity, ScopeId};
use cx_base::{List, Memory};
use cx_type_defs::{ClassId, EnumId, TypeId};
use indexmap::IndexMap;
use std::alloc::Global;

/// A class that was entered: its direct bases in order, and the innermost namespace around it.
#[derive(Drop)]
pub struct ClassScope {
    pub bases: List<ClassId>,
    pub space: u32,
}

/// Keeps a class's scope, unless it is there. A refusal changes nothing.
pub fn keep_class(
    alloc: Global,
    classes: &mut IndexMap<ClassId, ClassScope>,
    class: ClassId,
    bases: &[ClassId],
    space: u32,
) -> Result<(), Memory>
    ensures ok { OnOk result (classes.new.entries ≡ with_class classes.old.entries class bases.now space) }
    ensures err { OnErr result (classes.new.entries ≡ classes.old.entries) }
{
    if classes.contains_key(&class) {
        return Ok(());
    }
    let Ok(bases) = Vec::from_slice(alloc, bases) else {
        return Err(Memory);
    };
    let scope = ClassScope {
        bases: List::from_vec(bases),
        space,
    };
    match classes.insert(class, scope) {
        Ok(_) => Ok(()),
        Err(_) => Err(Memory),
    }
}

/// Keeps the namespace around an enumeration's scope, unless it is there. A refusal changes nothing.
pub fn keep_enum(enums: &mut IndexMap<EnumId, u32>, id: EnumId, space: u32) -> Result<(), Memory>
    ensures ok { OnOk result (enums.new.entries ≡ with_enum enums.old.entries id space) }
    ensures err { OnErr result (enums.new.entries ≡ enums.old.entries) }
{
    if enums.contains_key(&id) {
        return Ok(());
    }
    match enums.insert(id, space) {
        Ok(_) => Ok(()),
        Err(_) => Err(Memory),
    }
}

/// Keeps the namespace around a declaration that names a type in a namespace or class, unless the type is there.
pub fn keep_type(types: &mut IndexMap<TypeId, u32>, place: ScopeId, entity: Entity, space: u32)
    requires { 0 < spare types.old }
    ensures { types.new.entries ≡ types_with types.old.entries place entity space }
{
    if let ScopeId::Enum(_) = place {
        return;
    }
    if let Entity::Named(ty) = entity {
        if !types.contains_key(&ty) {
            types.insert(ty, space).unwrap();
        }
    }
}
