//! The lookup of functions by their arguments.
ghost use Rattle.std.specs.Prelude.{◌≡◌, ◌<◌, ◌++◌, length, OnOk, IfOk, IfErr};
ghost use Rattle.std.specs.List.{flat_map};
ghost use Rattle.cx_type_defs.specs.Levels.{most_steps};
ghost use Rattle.cx_scopes.specs.Lookup.{Answers};
ghost use Rattle.cx_scopes.specs.Arguments.{ArgsKnown, NamesKnown, associated, by_args_answer, class_space, class_spaces, enum_space, functions_in, is_of_scope, listed, named_space, type_spaces, with_spaces};

use crate::kinds::{Entity, Found, LookAnswer, ScopeId};
use crate::scopes::Scopes;
use crate::spaces::SpaceSet;
use crate::steps::is_overload;
use cx_base::{List, Text};
use cx_type_defs::{ClassId, EnumId, TypeId, TypeKind};
use cx_types::Types;

/// How many types a chain of pointers and arrays has at most.
#[tactic(auto, unfolding(cx_type_defs::specs::Levels::most_steps, cx_type_defs::specs::Questions::most_levels))]
fn most_steps() -> u32
    ensures { result ≡ most_steps }
{
    513
}

fn is_of(place: ScopeId, kind: TypeKind) -> bool
    ensures { result ≡ is_of_scope place kind }
{
    match place {
        ScopeId::Class(class) => match kind {
            TypeKind::Class(other) => class == other,
            _ => false,
        },
        ScopeId::Enum(id) => match kind {
            TypeKind::Enum(other) => id == other,
            _ => false,
        },
        ScopeId::Space(_) => false,
    }
}

fn add_if(space: Option<u32>, spaces: &mut SpaceSet) -> Result<(), LookAnswer>
    ensures ok { OnOk result (spaces.new ≡ with_spaces spaces.old (listed space)) }
    ensures memory { IfErr result (λ e. e ≡ LookAnswer.Memory) }
{
    match space {
        Some(n) => spaces.add(n),
        None => Ok(()),
    }
}

impl Scopes {
    /// The namespace around the first declaration that names the class or enumeration as a type.
    fn named_space(&self, types: &Types, place: ScopeId) -> Option<u32>
        requires { NamesKnown self.now types.now }
        ensures { result ≡ named_space place types.now self.now.types }
    {
        for i in 0..self.types.len() {
            let (ty, space) = self.types.get_index(i).unwrap();
            if is_of(place, types.row(*ty).kind) {
                return Some(*space);
            }
        }
        None
    }

    fn class_space(&self, types: &Types, class: ClassId) -> Option<u32>
        requires { NamesKnown self.now types.now }
        ensures { result ≡ class_space self.now types.now class }
    {
        match self.classes.get(&class) {
            Some(scope) => Some(scope.space),
            None => self.named_space(types, ScopeId::Class(class)),
        }
    }

    fn enum_space(&self, types: &Types, id: EnumId) -> Option<u32>
        requires { NamesKnown self.now types.now }
        ensures { result ≡ enum_space self.now types.now id }
    {
        match self.enums.get(&id) {
            Some(space) => Some(*space),
            None => self.named_space(types, ScopeId::Enum(id)),
        }
    }

    /// Puts in the namespaces around a class and its bases, looking so many levels deep.
    fn add_class(
        &self,
        types: &Types,
        levels: usize,
        class: ClassId,
        spaces: &mut SpaceSet,
    ) -> Result<(), LookAnswer>
        requires { NamesKnown self.now types.now }
        ensures ok { OnOk result (spaces.new ≡ with_spaces spaces.old (class_spaces self.now types.now levels class)) }
        ensures memory { IfErr result (λ e. e ≡ LookAnswer.Memory) }
    {
        add_if(self.class_space(types, class), spaces)?;
        if levels == 0 {
            return Ok(());
        }
        for base in self.bases_of(class) {
            self.add_class(types, levels - 1, *base, spaces)?;
        }
        Ok(())
    }

    /// Puts in the namespaces of a type, looking through so many pointers and arrays.
    fn add_type(
        &self,
        types: &Types,
        levels: u32,
        id: TypeId,
        spaces: &mut SpaceSet,
    ) -> Result<(), LookAnswer>
        requires arg { id.0 < length types.now.rows }
        requires names { NamesKnown self.now types.now }
        ensures ok { OnOk result (spaces.new ≡ with_spaces spaces.old (type_spaces self.now types.now levels id)) }
        ensures memory { IfErr result (λ e. e ≡ LookAnswer.Memory) }
    {
        if levels == 0 {
            return Ok(());
        }
        types.sound();
        match types.row(id).kind {
            TypeKind::Class(class) => self.add_class(types, self.classes.len(), class, spaces),
            TypeKind::Enum(id) => add_if(self.enum_space(types, id), spaces),
            TypeKind::Pointer(to) => self.add_type(types, levels - 1, to, spaces),
            TypeKind::Array(of, _) => self.add_type(types, levels - 1, of, spaces),
            _ => Ok(()),
        }
    }

    /// The associated namespaces of the arguments.
    fn associated(&self, types: &Types, args: &[TypeId]) -> Result<SpaceSet, LookAnswer>
        requires args { ArgsKnown types.now args.now }
        requires names { NamesKnown self.now types.now }
        ensures ok { IfOk result (λ spaces. spaces ≡ associated self.now types.now args.now) }
        ensures memory { IfErr result (λ e. e ≡ LookAnswer.Memory) }
    {
        let mut spaces = SpaceSet::new(self.alloc);
        for arg in args {
            self.add_type(types, most_steps(), *arg, &mut spaces)?;
        }
        Ok(spaces)
    }

    /// Puts the functions with this name in a namespace behind what was found.
    fn add_functions(
        &self,
        name: &[u8],
        space: u32,
        found: &mut List<Entity>,
    ) -> Result<(), LookAnswer>
        ensures ok { OnOk result (found.new ≡ found.old ++ functions_in self.now name.now space) }
        ensures memory { IfErr result (λ e. e ≡ LookAnswer.Memory) }
    {
        for entity in self.meanings_at(ScopeId::Space(space), name) {
            if is_overload(*entity) {
                found.push(*entity).map_err(|_| LookAnswer::Memory)?;
            }
        }
        Ok(())
    }

    /// The functions with this name in these namespaces.
    fn functions(&self, name: &[u8], spaces: &SpaceSet) -> Result<Found, LookAnswer>
        ensures ok { IfOk result (λ found. found ≡ flat_map (functions_in self.now name.now) spaces.now) }
        ensures memory { IfErr result (λ e. e ≡ LookAnswer.Memory) }
    {
        let mut found = List::new(self.alloc);
        for i in 0..spaces.len() {
            self.add_functions(name, spaces.at(i), &mut found)?;
        }
        Ok(found)
    }

    /// The functions that a name means in the associated namespaces of a call's arguments, namespace by namespace in
    /// order of first association, and in each in order of declaration ([basic.lookup.argdep]). Associated are the
    /// innermost namespaces around an argument's class, around that class's direct and indirect bases, and around its
    /// enumeration, through pointers and array elements too: the one around the scope of the class or enumeration where
    /// that was entered, else the one around its first declaration. `Unknown` exactly where there is no function.
    ///
    /// It asks that the arguments and the types that declarations name are types of `types`.
    pub fn find_by_args(
        &self,
        types: &Types,
        name: &Text,
        args: &List<TypeId>,
    ) -> Result<Found, LookAnswer>
        requires args { ArgsKnown types.now args.now }
        requires names { NamesKnown self.now types.now }
        ensures { Answers (by_args_answer self.now types.now name.now args.now) result }
    {
        let spaces = self.associated(types, args.as_slice())?;
        let found = self.functions(name.as_slice(), &spaces)?;
        if found.len() == 0 {
            return Err(LookAnswer::Unknown);
        }
        Ok(found)
    }
}
