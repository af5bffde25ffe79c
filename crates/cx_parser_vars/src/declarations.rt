//! `static_assert` and `using` ([dcl.pre], [dcl.typedef]).

ghost use Rattle.std.specs.Prelude.{◌≡◌};
ghost use Rattle.cx_grammar.specs.Reads.{Reads};
ghost use Rattle.cx_parser_vars.specs.Parts as parts;
ghost use Rattle.cx_syntax_parts.specs.Readers as spec;

use crate::attributes::attrs;
use cx_ahead::{AnyString, Type};
use cx_base::{List, Text};
use cx_grammar::{Cursor, ParseStop};
use cx_parser::{cond, typeid};
use cx_parser_names::{Piece, ident, piece, read_more};
use cx_syntax::{Class, Lexeme, span_of};
use cx_tree::{Alias, Assert};
use std::alloc::Global;

// A comma and the message, if they are there.
#[tactic(auto, unfolding(cx_syntax_parts::specs::Readers::pieces))]
fn message(alloc: Global, tokens: &mut Cursor<'_, Lexeme>) -> Result<Option<List<Text>>, ParseStop>
    ensures { Reads (parts.message tokens.old) result tokens.new }
{
    if !tokens.sees(&Class::Comma) {
        return Ok(None);
    }
    tokens.expect(&Class::Comma)?;
    let mut first = List::new(alloc);
    first.push(piece(tokens)?)?;
    Ok(Some(read_more(tokens, first, &AnyString, &Piece)?))
}

/// `static_assert` with so many levels left ([dcl.pre]).
#[inline(never)]
#[tactic(auto, unfolding(cx_syntax_parts::specs::Readers::assert))]
pub fn static_assert(
    alloc: Global,
    tokens: &mut Cursor<'_, Lexeme>,
    left: usize,
) -> Result<Assert, ParseStop>
    ensures { Reads (spec.assert left tokens.old) result tokens.new }
{
    let from = tokens.rest();
    tokens.expect(&Class::StaticAssert)?;
    tokens.expect(&Class::OpenParen)?;
    let condition = cond(alloc, tokens, left)?;
    let message = message(alloc, tokens)?;
    tokens.expect(&Class::CloseParen)?;
    tokens.expect(&Class::Semicolon)?;
    Ok(Assert {
        condition: condition.into_inner(),
        message,
        span: span_of(tokens.since(from)),
    })
}

/// `using T = ..` with so many levels left ([dcl.typedef]).
#[inline(never)]
#[tactic(auto, unfolding(cx_syntax_parts::specs::Readers::alias))]
pub fn alias(
    alloc: Global,
    tokens: &mut Cursor<'_, Lexeme>,
    left: usize,
) -> Result<Alias, ParseStop>
    ensures { Reads (spec.alias left tokens.old) result tokens.new }
{
    let from = tokens.rest();
    tokens.expect(&Class::Using)?;
    let name = ident(alloc, tokens, &Type)?;
    let attrs = attrs(tokens, left)?;
    tokens.expect(&Class::Equal)?;
    let ty = typeid(alloc, tokens, left)?;
    tokens.expect(&Class::Semicolon)?;
    Ok(Alias {
        name,
        attrs,
        ty: ty.into_inner(),
        span: span_of(tokens.since(from)),
    })
}
