//! Constructors, destructors, and the functions and variables of a class ([class.ctor], [class.dtor], [class.mem]).

ghost use Rattle.std.specs.Prelude.{◌≡◌};
ghost use Rattle.cx_grammar.specs.Reads.{Reads};
ghost use Rattle.cx_parser_decls.specs.Parts as parts;
ghost use Rattle.cx_syntax_decls.specs.Readers as spec;

use crate::ahead::behind_modifiers;
use crate::entities::entity_end;
use crate::functions::{NoexEnd, noex_end, paren_params};
use crate::inits::maybe_minits;
use cx_ahead::{Type, sees};
use cx_base::List;
use cx_grammar::{Cursor, ParseStop};
use cx_parser_names::{destructor_name, ident, modifiers, or_none};
use cx_parser_stmts::block;
use cx_parser_vars::{StartsTail, attrs, noex, tail};
use cx_syntax::{Class, Lexeme};
use cx_tree::{
    Constructor, ConstructorBody, Destructor, DestructorName, Entity, Ident, MemberKind, Param,
};
use std::alloc::Global;

/// Parameters, the levels of `noexcept`, and the body.
type CtorParams = (Option<List<Param>>, (u32, ConstructorBody));

#[tactic(auto, unfolding(cx_syntax_decls::specs::Readers::ctor_body))]
fn ctor_body(
    alloc: Global,
    tokens: &mut Cursor<'_, Lexeme>,
    left: usize,
) -> Result<ConstructorBody, ParseStop>
    ensures { Reads (spec.ctor_body left tokens.old) result tokens.new }
{
    if tokens.sees(&StartsTail) {
        return Ok(ConstructorBody::Tail(tail(tokens)?));
    }
    let inits = maybe_minits(alloc, tokens, left)?;
    let block = block(alloc, tokens, left)?;
    Ok(ConstructorBody::Block(or_none(alloc, inits), block))
}

fn ctor_params(
    alloc: Global,
    tokens: &mut Cursor<'_, Lexeme>,
    left: usize,
) -> Result<CtorParams, ParseStop>
    ensures { Reads (spec.ctor_params left tokens.old) result tokens.new }
{
    let params = paren_params(alloc, tokens, left)?;
    let levels = noex(tokens, left)?;
    let body = ctor_body(alloc, tokens, left)?;
    Ok((params, (levels, body)))
}

#[tactic(auto, unfolding(cx_syntax_decls::specs::Readers::ctor_end))]
fn ctor_end(
    alloc: Global,
    tokens: &mut Cursor<'_, Lexeme>,
    left: usize,
) -> Result<(Ident, CtorParams), ParseStop>
    ensures { Reads (spec.ctor_end left tokens.old) result tokens.new }
{
    let name = ident(alloc, tokens, &Type)?;
    let end = ctor_params(alloc, tokens, left)?;
    Ok((name, end))
}

/// A constructor behind attributes that nest so many levels ([class.ctor]).
#[inline(never)]
fn constructor_with(
    alloc: Global,
    tokens: &mut Cursor<'_, Lexeme>,
    left: usize,
    attrs: u32,
) -> Result<MemberKind, ParseStop>
    ensures { Reads (parts.constructor_with attrs left tokens.old) result tokens.new }
{
    let modifiers = modifiers(alloc, tokens)?;
    let (name, (params, (noexcept, body))) = ctor_end(alloc, tokens, left)?;
    Ok(MemberKind::Constructor(Constructor {
        attrs,
        modifiers,
        name,
        params: or_none(alloc, params),
        noexcept,
        body,
    }))
}

#[tactic(auto, unfolding(cx_syntax_decls::specs::Readers::dtor_end))]
fn dtor_end(
    alloc: Global,
    tokens: &mut Cursor<'_, Lexeme>,
    left: usize,
) -> Result<(DestructorName, NoexEnd), ParseStop>
    ensures { Reads (spec.dtor_end left tokens.old) result tokens.new }
{
    let name = destructor_name(alloc, tokens)?;
    tokens.expect(&Class::OpenParen)?;
    tokens.expect(&Class::CloseParen)?;
    let end = noex_end(alloc, tokens, left)?;
    Ok((name, end))
}

/// A destructor behind attributes that nest so many levels ([class.dtor]).
#[inline(never)]
fn destructor_with(
    alloc: Global,
    tokens: &mut Cursor<'_, Lexeme>,
    left: usize,
    attrs: u32,
) -> Result<MemberKind, ParseStop>
    ensures { Reads (parts.destructor_with attrs left tokens.old) result tokens.new }
{
    let modifiers = modifiers(alloc, tokens)?;
    let (name, (noexcept, (virtuals, body))) = dtor_end(alloc, tokens, left)?;
    Ok(MemberKind::Destructor(Destructor {
        attrs,
        modifiers,
        name,
        noexcept,
        virtuals,
        body,
    }))
}

/// Variables or a function behind attributes that nest so many levels.
fn entity_with(
    alloc: Global,
    tokens: &mut Cursor<'_, Lexeme>,
    left: usize,
    attrs: u32,
) -> Result<MemberKind, ParseStop>
    ensures { Reads (parts.entity_with attrs left tokens.old) result tokens.new }
{
    let (specs, kind) = entity_end(alloc, tokens, left)?;
    Ok(MemberKind::Entity(Entity { attrs, specs, kind }))
}

/// Which of them, by what stands behind the modifiers.
#[tactic(auto, unfolding(cx_syntax_decls::specs::Readers::behind_attrs))]
fn kind_with(
    alloc: Global,
    tokens: &mut Cursor<'_, Lexeme>,
    left: usize,
    attrs: u32,
) -> Result<MemberKind, ParseStop>
    ensures { Reads (parts.kind_with attrs left tokens.old) result tokens.new }
{
    let declarator = behind_modifiers(alloc, tokens.rest())?;
    if Cursor::new(declarator).sees_two(&Type, &Class::OpenParen) {
        constructor_with(alloc, tokens, left, attrs)
    } else if sees(&Class::Tilde, declarator) {
        destructor_with(alloc, tokens, left, attrs)
    } else {
        entity_with(alloc, tokens, left, attrs)
    }
}

/// A constructor, a destructor, a function or variables among the members of a class ([class.mem]).
#[inline(never)]
#[tactic(auto, unfolding(cx_syntax_decls::specs::Readers::member_function))]
pub fn member_function(
    alloc: Global,
    tokens: &mut Cursor<'_, Lexeme>,
    left: usize,
) -> Result<MemberKind, ParseStop>
    ensures { Reads (spec.member_function left tokens.old) result tokens.new }
{
    let attrs = attrs(tokens, left)?;
    kind_with(alloc, tokens, left, attrs)
}
