//! What stands among members and declarations and holds none of them.

ghost use Rattle.std.specs.Prelude.{◌≡◌, IfOk};
ghost use Rattle.cx_grammar.specs.Reads.{Reads};
ghost use Rattle.cx_parser_decls.specs.Parts as parts;
ghost use Rattle.cx_syntax_decls.specs.Readers as spec;
ghost use Rattle.cx_syntax_decls.specs.Values as values;

use crate::entities::entity;
use crate::member_functions::member_function;
use cx_base::Span;
use cx_grammar::{Cursor, ParseStop};
use cx_parser_vars::{access, alias, enumeration, static_assert, typedef};
use cx_syntax::{Class, Lexeme};
use cx_tree::{Decl, DeclKind, Member, MemberKind};
use sqlite_items::Boxed;
use std::alloc::{AllocError, Global};

/// A member.
#[inline(never)]
pub fn new_member(
    alloc: Global,
    kind: Boxed<MemberKind>,
    span: Span,
) -> Result<Boxed<Member>, AllocError>
    ensures { IfOk result (λ member. member ≡ values.member_of (kind, span)) }
{
    let kind = kind.into_inner();
    Boxed::new(alloc, Member { kind, span })
}

/// A declaration.
#[inline(never)]
pub fn new_decl(alloc: Global, kind: Boxed<DeclKind>, span: Span) -> Result<Boxed<Decl>, AllocError>
    ensures { IfOk result (λ decl. decl ≡ values.decl_of (kind, span)) }
{
    let kind = kind.into_inner();
    Boxed::new(alloc, Decl { kind, span })
}

/// An access and `:` ([class.access]).
#[inline(never)]
pub fn access_member(
    alloc: Global,
    tokens: &mut Cursor<'_, Lexeme>,
) -> Result<Boxed<MemberKind>, ParseStop>
    ensures { Reads (parts.access_member tokens.old) result tokens.new }
{
    let access = access(tokens)?;
    tokens.expect(&Class::Colon)?;
    Ok(Boxed::new(alloc, MemberKind::Access(access))?)
}

#[inline(never)]
pub fn empty_member(
    alloc: Global,
    tokens: &mut Cursor<'_, Lexeme>,
) -> Result<Boxed<MemberKind>, ParseStop>
    ensures { Reads (parts.empty_member tokens.old) result tokens.new }
{
    tokens.expect(&Class::Semicolon)?;
    Ok(Boxed::new(alloc, MemberKind::Empty)?)
}

#[inline(never)]
pub fn assert_member(
    alloc: Global,
    tokens: &mut Cursor<'_, Lexeme>,
    left: usize,
) -> Result<Boxed<MemberKind>, ParseStop>
    ensures { Reads (parts.assert_member left tokens.old) result tokens.new }
{
    let assert = static_assert(alloc, tokens, left)?;
    Ok(Boxed::new(alloc, MemberKind::Assert(assert))?)
}

#[inline(never)]
pub fn alias_member(
    alloc: Global,
    tokens: &mut Cursor<'_, Lexeme>,
    left: usize,
) -> Result<Boxed<MemberKind>, ParseStop>
    ensures { Reads (parts.alias_member left tokens.old) result tokens.new }
{
    let alias = alias(alloc, tokens, left)?;
    Ok(Boxed::new(alloc, MemberKind::Alias(alias))?)
}

#[inline(never)]
pub fn typedef_member(
    alloc: Global,
    tokens: &mut Cursor<'_, Lexeme>,
) -> Result<Boxed<MemberKind>, ParseStop>
    ensures { Reads (parts.typedef_member tokens.old) result tokens.new }
{
    let typedef = typedef(alloc, tokens)?;
    Ok(Boxed::new(alloc, MemberKind::Typedef(typedef))?)
}

#[inline(never)]
pub fn enum_member(
    alloc: Global,
    tokens: &mut Cursor<'_, Lexeme>,
    left: usize,
) -> Result<Boxed<MemberKind>, ParseStop>
    ensures { Reads (parts.enum_member left tokens.old) result tokens.new }
{
    let enumeration = enumeration(alloc, tokens, left)?;
    Ok(Boxed::new(alloc, MemberKind::Enum(enumeration))?)
}

/// A constructor, a destructor, a function or variables ([class.mem]).
#[inline(never)]
pub fn function_member(
    alloc: Global,
    tokens: &mut Cursor<'_, Lexeme>,
    left: usize,
) -> Result<Boxed<MemberKind>, ParseStop>
    ensures { Reads (spec.member_function left tokens.old) result tokens.new }
{
    let kind = member_function(alloc, tokens, left)?;
    Ok(Boxed::new(alloc, kind)?)
}

#[inline(never)]
pub fn empty_decl(
    alloc: Global,
    tokens: &mut Cursor<'_, Lexeme>,
) -> Result<Boxed<DeclKind>, ParseStop>
    ensures { Reads (parts.empty_decl tokens.old) result tokens.new }
{
    tokens.expect(&Class::Semicolon)?;
    Ok(Boxed::new(alloc, DeclKind::Empty)?)
}

#[inline(never)]
pub fn assert_decl(
    alloc: Global,
    tokens: &mut Cursor<'_, Lexeme>,
    left: usize,
) -> Result<Boxed<DeclKind>, ParseStop>
    ensures { Reads (parts.assert_decl left tokens.old) result tokens.new }
{
    let assert = static_assert(alloc, tokens, left)?;
    Ok(Boxed::new(alloc, DeclKind::Assert(assert))?)
}

#[inline(never)]
pub fn alias_decl(
    alloc: Global,
    tokens: &mut Cursor<'_, Lexeme>,
    left: usize,
) -> Result<Boxed<DeclKind>, ParseStop>
    ensures { Reads (parts.alias_decl left tokens.old) result tokens.new }
{
    let alias = alias(alloc, tokens, left)?;
    Ok(Boxed::new(alloc, DeclKind::Alias(alias))?)
}

#[inline(never)]
pub fn typedef_decl(
    alloc: Global,
    tokens: &mut Cursor<'_, Lexeme>,
) -> Result<Boxed<DeclKind>, ParseStop>
    ensures { Reads (parts.typedef_decl tokens.old) result tokens.new }
{
    let typedef = typedef(alloc, tokens)?;
    Ok(Boxed::new(alloc, DeclKind::Typedef(typedef))?)
}

#[inline(never)]
pub fn enum_decl(
    alloc: Global,
    tokens: &mut Cursor<'_, Lexeme>,
    left: usize,
) -> Result<Boxed<DeclKind>, ParseStop>
    ensures { Reads (parts.enum_decl left tokens.old) result tokens.new }
{
    let enumeration = enumeration(alloc, tokens, left)?;
    Ok(Boxed::new(alloc, DeclKind::Enum(enumeration))?)
}

/// Variables or a function ([dcl.pre]).
#[inline(never)]
pub fn entity_decl(
    alloc: Global,
    tokens: &mut Cursor<'_, Lexeme>,
    left: usize,
) -> Result<Boxed<DeclKind>, ParseStop>
    ensures { Reads (parts.entity_decl left tokens.old) result tokens.new }
{
    let entity = entity(alloc, tokens, left)?;
    Ok(Boxed::new(alloc, DeclKind::Entity(entity))?)
}
