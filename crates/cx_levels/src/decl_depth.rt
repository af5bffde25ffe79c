//! How many levels a declaration's text goes deeper than its own place ([gram], [implimits]).

ghost use Rattle.std.specs.Prelude.{◌≡◌, ◌<◌, ◌^◌, map};
ghost use Rattle.cx_levels.specs.Levels.{greatest};
ghost use Rattle.cx_levels.specs.DeclLevels.{levels_of_base, levels_of_body, levels_of_class, levels_of_class_body, levels_of_constructor, levels_of_constructor_body, levels_of_decl, levels_of_decl_kind, levels_of_destructor, levels_of_entity, levels_of_function, levels_of_member, levels_of_member_init, levels_of_member_kind, levels_of_namespace, levels_of_param, levels_of_unit};

use crate::expr_depth::{bounds_levels, given_levels};
use crate::stmt_depth::{
    alias_levels, assert_levels, block_levels, enumeration_levels, vars_levels, within_levels,
};
use cx_tree::{
    Base, Body, Class, ClassBody, Constructor, ConstructorBody, Decl, DeclKind, Destructor, Entity,
    EntityKind, Function, Member, MemberInit, MemberKind, Namespace, Param, Unit,
};

/// The greatest level in a unit's text ([gram]): the unit itself stands at level 0, attributes and `noexcept` are counted.
pub fn levels(unit: &Unit) -> u32
    requires fits { levels_of_unit unit.now < 2 ^ 32 }
    ensures { result ≡ levels_of_unit unit.now }
{
    let mut most = 0;
    for decl in unit.decls.as_slice() {
        most = most.max(decl_levels(decl));
    }
    most
}

#[cycle(levels)]
fn decl_levels(decl: &Decl) -> u32
    requires { levels_of_decl decl.now < 2 ^ 32 }
    ensures { result ≡ levels_of_decl decl.now }
{
    decl_kind_levels(&decl.kind)
}

#[cycle(levels)]
fn decl_kind_levels(kind: &DeclKind) -> u32
    requires { levels_of_decl_kind kind.now < 2 ^ 32 }
    ensures { result ≡ levels_of_decl_kind kind.now }
{
    match kind {
        DeclKind::Empty | DeclKind::Typedef(_) => 0,
        DeclKind::Namespace(namespace) => namespace_levels(namespace),
        DeclKind::Assert(declaration) => assert_levels(declaration),
        DeclKind::Alias(declaration) => alias_levels(declaration),
        DeclKind::Enum(declaration) => enumeration_levels(declaration),
        DeclKind::Class(declaration) => class_levels(declaration),
        DeclKind::Entity(declaration) => entity_levels(declaration),
    }
}

#[cycle(levels)]
fn namespace_levels(namespace: &Namespace) -> u32
    requires { levels_of_namespace namespace.now < 2 ^ 32 }
    ensures { result ≡ levels_of_namespace namespace.now }
{
    let mut most = 0;
    for decl in namespace.decls.as_slice() {
        most = most.max(1 + decl_levels(decl));
    }
    namespace.attrs.max(most)
}

#[cycle(classes)]
fn class_levels(class: &Class) -> u32
    requires { levels_of_class class.now < 2 ^ 32 }
    ensures { result ≡ levels_of_class class.now }
{
    match &class.body {
        Some(body) => class.attrs.max(class_body_levels(body)),
        None => class.attrs,
    }
}

#[cycle(classes)]
fn class_body_levels(body: &ClassBody) -> u32
    requires { levels_of_class_body body.now < 2 ^ 32 }
    ensures { result ≡ levels_of_class_body body.now }
{
    let mut most = 0;
    for member in body.members.as_slice() {
        most = most.max(1 + member_levels(&member.kind));
    }
    most.max(bases_levels(body.bases.as_slice()))
}

fn bases_levels(bases: &[Base]) -> u32
    requires { greatest (map levels_of_base bases.now) < 2 ^ 32 }
    ensures { result ≡ greatest (map levels_of_base bases.now) }
{
    let mut most = 0;
    for base in bases {
        most = most.max(base.attrs);
    }
    most
}

#[cycle(classes)]
fn member_levels(kind: &MemberKind) -> u32
    requires { levels_of_member_kind kind.now < 2 ^ 32 }
    ensures { result ≡ levels_of_member_kind kind.now }
{
    match kind {
        MemberKind::Access(_) | MemberKind::Empty | MemberKind::Typedef(_) => 0,
        MemberKind::Assert(declaration) => assert_levels(declaration),
        MemberKind::Alias(declaration) => alias_levels(declaration),
        MemberKind::Enum(declaration) => enumeration_levels(declaration),
        MemberKind::Class(declaration) => class_levels(declaration),
        MemberKind::Constructor(declaration) => constructor_levels(declaration),
        MemberKind::Destructor(declaration) => destructor_levels(declaration),
        MemberKind::Entity(declaration) => entity_levels(declaration),
    }
}

fn constructor_levels(constructor: &Constructor) -> u32
    requires { levels_of_constructor constructor.now < 2 ^ 32 }
    ensures { result ≡ levels_of_constructor constructor.now }
{
    let words = constructor.attrs.max(constructor.noexcept);
    words
        .max(params_levels(constructor.params.as_slice()))
        .max(constructor_body_levels(&constructor.body))
}

fn constructor_body_levels(body: &ConstructorBody) -> u32
    requires { levels_of_constructor_body body.now < 2 ^ 32 }
    ensures { result ≡ levels_of_constructor_body body.now }
{
    match body {
        ConstructorBody::Tail(_) => 0,
        ConstructorBody::Block(inits, block) => {
            member_inits_levels(inits.as_slice()).max(block_levels(block))
        }
    }
}

fn member_inits_levels(inits: &[MemberInit]) -> u32
    requires { greatest (map levels_of_member_init inits.now) < 2 ^ 32 }
    ensures { result ≡ greatest (map levels_of_member_init inits.now) }
{
    let mut most = 0;
    for init in inits {
        most = most.max(given_levels(&init.given));
    }
    most
}

fn destructor_levels(destructor: &Destructor) -> u32
    requires { levels_of_destructor destructor.now < 2 ^ 32 }
    ensures { result ≡ levels_of_destructor destructor.now }
{
    let words = destructor.attrs.max(destructor.noexcept);
    words.max(body_levels(&destructor.body))
}

fn entity_levels(entity: &Entity) -> u32
    requires { levels_of_entity entity.now < 2 ^ 32 }
    ensures { result ≡ levels_of_entity entity.now }
{
    match &entity.kind {
        EntityKind::Vars(vars) => entity.attrs.max(vars_levels(vars.as_slice())),
        EntityKind::Function(function) => entity.attrs.max(function_levels(function)),
    }
}

fn function_levels(function: &Function) -> u32
    requires { levels_of_function function.now < 2 ^ 32 }
    ensures { result ≡ levels_of_function function.now }
{
    let params = params_levels(function.params.as_slice());
    params
        .max(function.noexcept)
        .max(body_levels(&function.body))
}

fn params_levels(params: &[Param]) -> u32
    requires { greatest (map levels_of_param params.now) < 2 ^ 32 }
    ensures { result ≡ greatest (map levels_of_param params.now) }
{
    let mut most = 0;
    for param in params {
        most = most.max(param_levels(param));
    }
    most
}

fn param_levels(param: &Param) -> u32
    requires { levels_of_param param.now < 2 ^ 32 }
    ensures { result ≡ levels_of_param param.now }
{
    param
        .attrs
        .max(bounds_levels(param.bounds.as_slice()))
        .max(within_levels(&param.default))
}

fn body_levels(body: &Body) -> u32
    requires { levels_of_body body.now < 2 ^ 32 }
    ensures { result ≡ levels_of_body body.now }
{
    match body {
        Body::Tail(_) => 0,
        Body::Block(block) => block_levels(block),
    }
}
