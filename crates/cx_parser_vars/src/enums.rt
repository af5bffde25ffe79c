//! Enumerations ([dcl.enum]).

ghost use Rattle.std.specs.Prelude.{◌≡◌};
ghost use Rattle.cx_grammar.specs.Reads.{Reads};
ghost use Rattle.cx_parser_vars.specs.Parts as parts;
ghost use Rattle.cx_syntax_parts.specs.Readers as spec;

use crate::attributes::attrs;
use crate::sets::EnumKey;
use cx_ahead::{Id, Type};
use cx_base::List;
use cx_grammar::{Cursor, ParseStop, Part, read_others};
use cx_parser::cond;
use cx_parser_names::{ident, or_none, specs};
use cx_syntax::{Class, Lexeme, span_of};
use cx_tree::{Enumeration, EnumerationKind, Enumerator, Expr, Ident, Specs};
use std::alloc::Global;

// `=` and the value, if they are there.
#[inline(never)]
fn enumr_value(
    alloc: Global,
    tokens: &mut Cursor<'_, Lexeme>,
    left: usize,
) -> Result<Option<Expr>, ParseStop>
    ensures { Reads (spec.enumr_value left tokens.old) result tokens.new }
{
    if !tokens.sees(&Class::Equal) {
        return Ok(None);
    }
    tokens.expect(&Class::Equal)?;
    Ok(Some(cond(alloc, tokens, left)?.into_inner()))
}

#[inline(never)]
#[tactic(auto, unfolding(cx_syntax_parts::specs::Readers::enumr))]
fn enumr(
    alloc: Global,
    tokens: &mut Cursor<'_, Lexeme>,
    left: usize,
) -> Result<Enumerator, ParseStop>
    ensures { Reads (spec.enumr left tokens.old) result tokens.new }
{
    let from = tokens.rest();
    let name = ident(alloc, tokens, &Id)?;
    let attrs = attrs(tokens, left)?;
    let value = enumr_value(alloc, tokens, left)?;
    Ok(Enumerator {
        name,
        attrs,
        value,
        span: span_of(tokens.since(from)),
    })
}

/// A comma and an enumerator, as a part that a loop reads.
#[derive(Drop)]
struct OtherEnumrs {
    alloc: Global,
    left: usize,
}

impl Part<Lexeme> for OtherEnumrs {
    type Value = Enumerator;

    ghost ready = { λ _. Unit {0} };

    ghost reader = { λ s. parts.other_enumr s.left };

    fn read(&self, tokens: &mut Cursor<'_, Lexeme>) -> Result<Enumerator, ParseStop> {
        tokens.expect(&Class::Comma)?;
        enumr(self.alloc, tokens, self.left)
    }
}

// At least one enumerator and perhaps a comma behind the last, or nothing.
fn maybe_enumrs(
    alloc: Global,
    tokens: &mut Cursor<'_, Lexeme>,
    left: usize,
) -> Result<Option<List<Enumerator>>, ParseStop>
    ensures { Reads (parts.maybe_enumrs left tokens.old) result tokens.new }
{
    if !tokens.sees(&Id) {
        return Ok(None);
    }
    let mut first = List::new(alloc);
    first.push(enumr(alloc, tokens, left)?)?;
    let others = OtherEnumrs { alloc, left };
    Ok(Some(read_others(tokens, first, &Class::Comma, &Id, &others)?))
}

#[tactic(auto, unfolding(cx_syntax_parts::specs::Readers::enums))]
fn enums(
    alloc: Global,
    tokens: &mut Cursor<'_, Lexeme>,
    left: usize,
) -> Result<List<Enumerator>, ParseStop>
    ensures { Reads (spec.enums left tokens.old) result tokens.new }
{
    tokens.expect(&Class::OpenBrace)?;
    let found = maybe_enumrs(alloc, tokens, left)?;
    tokens.expect(&Class::CloseBrace)?;
    Ok(or_none(alloc, found))
}

#[tactic(auto, unfolding(cx_syntax_parts::specs::Readers::enum_end))]
fn enum_end(
    alloc: Global,
    tokens: &mut Cursor<'_, Lexeme>,
    left: usize,
) -> Result<Option<List<Enumerator>>, ParseStop>
    ensures { Reads (spec.enum_end left tokens.old) result tokens.new }
{
    if tokens.sees(&Class::Semicolon) {
        tokens.expect(&Class::Semicolon)?;
        return Ok(None);
    }
    let found = enums(alloc, tokens, left)?;
    tokens.expect(&Class::Semicolon)?;
    Ok(Some(found))
}

// A colon and the type, if they are there.
fn enum_base(alloc: Global, tokens: &mut Cursor<'_, Lexeme>) -> Result<Option<Specs>, ParseStop>
    ensures { Reads (spec.enum_base tokens.old) result tokens.new }
{
    if !tokens.sees(&Class::Colon) {
        return Ok(None);
    }
    tokens.expect(&Class::Colon)?;
    Ok(Some(specs(alloc, tokens)?))
}

#[tactic(auto, unfolding(cx_syntax_parts::specs::Readers::named))]
fn named(
    alloc: Global,
    tokens: &mut Cursor<'_, Lexeme>,
    left: usize,
) -> Result<(Ident, (Option<Specs>, Option<List<Enumerator>>)), ParseStop>
    ensures { Reads (spec.named left tokens.old) result tokens.new }
{
    let name = ident(alloc, tokens, &Type)?;
    let base = enum_base(alloc, tokens)?;
    let found = enum_end(alloc, tokens, left)?;
    Ok((name, (base, found)))
}

#[tactic(auto, unfolding(cx_syntax_parts::specs::Readers::unnamed))]
fn unnamed(
    alloc: Global,
    tokens: &mut Cursor<'_, Lexeme>,
    left: usize,
) -> Result<(Option<Specs>, List<Enumerator>), ParseStop>
    ensures { Reads (spec.unnamed left tokens.old) result tokens.new }
{
    let base = enum_base(alloc, tokens)?;
    let found = enums(alloc, tokens, left)?;
    tokens.expect(&Class::Semicolon)?;
    Ok((base, found))
}

// Behind the attributes of another enumeration.
#[inline(never)]
#[tactic(auto, unfolding(cx_syntax_parts::specs::Readers::unscoped_kind))]
fn unscoped_kind(
    alloc: Global,
    tokens: &mut Cursor<'_, Lexeme>,
    left: usize,
) -> Result<EnumerationKind, ParseStop>
    ensures { Reads (spec.unscoped_kind left tokens.old) result tokens.new }
{
    if tokens.sees(&Type) {
        let (name, (base, found)) = named(alloc, tokens, left)?;
        return Ok(EnumerationKind::Named(false, name, base, found));
    }
    let (base, found) = unnamed(alloc, tokens, left)?;
    Ok(EnumerationKind::Unnamed(base, found))
}

#[tactic(auto, unfolding(cx_syntax_parts::specs::Readers::enum_kind, cx_syntax_parts::specs::Readers::scoped_enum))]
fn enum_kind(
    alloc: Global,
    tokens: &mut Cursor<'_, Lexeme>,
    left: usize,
) -> Result<(u32, EnumerationKind), ParseStop>
    ensures { Reads (spec.enum_kind left tokens.old) result tokens.new }
{
    if tokens.sees(&EnumKey) {
        tokens.expect(&EnumKey)?;
        let attrs = attrs(tokens, left)?;
        let (name, (base, found)) = named(alloc, tokens, left)?;
        return Ok((attrs, EnumerationKind::Named(true, name, base, found)));
    }
    let attrs = attrs(tokens, left)?;
    let kind = unscoped_kind(alloc, tokens, left)?;
    Ok((attrs, kind))
}

/// An enumeration with so many levels left ([dcl.enum]).
#[inline(never)]
pub fn enumeration(
    alloc: Global,
    tokens: &mut Cursor<'_, Lexeme>,
    left: usize,
) -> Result<Enumeration, ParseStop>
    ensures { Reads (spec.enum left tokens.old) result tokens.new }
{
    let from = tokens.rest();
    tokens.expect(&Class::Enum)?;
    let (attrs, kind) = enum_kind(alloc, tokens, left)?;
    Ok(Enumeration {
        attrs,
        kind,
        span: span_of(tokens.since(from)),
    })
}
